use crate::look::given;
use crate::round::{Answer, Delivery, Head, Link, after_round, answered};
use std::test::Fail;

// Two frames held behind a backlog, fixed.
const FIXED: Delivery = Delivery {
    settled: 5,
    held: 2,
    head: Some(Head::Backlog),
    owed: true,
    fixed: true,
    since: 7,
    ended: false,
};

// What is left of it where it was handed over, and where it was discarded.
const SENT: Delivery = Delivery {
    settled: 7,
    held: 0,
    head: None,
    owed: false,
    fixed: false,
    since: 7,
    ended: false,
};

const DISCARDED: Delivery = Delivery {
    settled: 7,
    held: 0,
    head: None,
    owed: true,
    fixed: false,
    since: 7,
    ended: false,
};

#[test]
fn a_look_ends_with_the_room_or_the_frame_that_reaches_the_octets(
    rt: HostRuntime,
) -> Result<(), Fail> {
    assert_eq!(rt; given(2, 100, &[10, 20, 30]), 2);
    assert_eq!(rt; given(9, 30, &[10, 20, 30]), 2);
    assert_eq!(rt; given(9, 31, &[10, 20, 30]), 3);
    assert_eq!(rt; given(9, 1000, &[10, 20, 30]), 3);
    assert_eq!(rt; given(0, 1000, &[10]), 0);
    Ok(())
}

#[test]
fn a_buffer_is_discarded_where_it_stalled(rt: HostRuntime) -> Result<(), Fail> {
    assert_eq!(rt; answered(true, Answer::Stalled, &FIXED), DISCARDED);
    assert_eq!(rt; answered(false, Answer::Stalled, &FIXED), FIXED);
    assert_eq!(rt; answered(true, Answer::Failed, &FIXED), FIXED);
    assert_eq!(rt; answered(true, Answer::Whole, &FIXED), SENT);
    Ok(())
}

#[test]
fn a_blocked_round_changes_nothing(rt: HostRuntime) -> Result<(), Fail> {
    let before = DISCARDED;
    assert_eq!(rt; after_round(true, Link::Blocked, &before, &FIXED), before);
    assert_eq!(rt; after_round(true, Link::Waiting, &before, &FIXED), FIXED);
    assert_eq!(rt;
        after_round(true, Link::Free(Answer::Stalled), &before, &FIXED),
        DISCARDED
    );
    assert_eq!(rt; after_round(true, Link::Broken, &before, &FIXED), before);
    Ok(())
}
