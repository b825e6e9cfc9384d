// The link in memory, polled and offered octets as by a session.
use link_model::{Call, Heard, Link, MemoryLink, Poll};
use octet_core::{Octets, Offer};
use std::test::Fail;

// Through the bound alone, as a session polls.
fn poll_three<L: Link>(link: &mut L) -> (Poll, [u8; 3]) {
    let mut into = *b"...";
    let answer = link.poll(&mut into);
    (answer, into)
}

// Through the bound alone, as a session offers.
fn offer<L: Link>(link: &mut L) -> Offer {
    link.offer(b"xy")
}

#[test]
fn a_poll_takes_of_one_piece_alone_and_hears_the_close_last(rt: HostRuntime) -> Result<(), Fail> {
    let mut link = MemoryLink::new(rt.alloc(), Vec::new(rt.alloc()));
    link.arrive(Octets::copy_of(rt.alloc(), b"abcd")?)?;
    link.arrive(Octets::copy_of(rt.alloc(), b"e")?)?;
    assert_eq!(rt; poll_three(&mut link), (Poll::Arrived(3), *b"abc"));
    link.shut();
    link.arrive(Octets::copy_of(rt.alloc(), b"late")?)?;
    for heard in [
        (Poll::Arrived(1), *b"d.."),
        (Poll::Arrived(1), *b"e.."),
        (Poll::Closed, *b"..."),
        (Poll::Closed, *b"..."),
    ] {
        assert_eq!(rt; poll_three(&mut link), heard);
    }
    Ok(())
}

#[test]
fn calls_that_fail_and_stall_are_counted_and_told(rt: HostRuntime) -> Result<(), Fail> {
    let mut link = MemoryLink::new(rt.alloc(), vec![in rt.alloc(); 4]?);
    link.break_poll();
    link.stall(1);
    assert_eq!(rt; poll_three(&mut link).0, Poll::Failed);
    for answer in [Offer::Stalled, Offer::Whole, Offer::Failed] {
        assert_eq!(rt; offer(&mut link), answer);
    }
    assert_eq!(rt; (link.faults(), link.stalls()), (2, 1));
    assert!(rt;
        matches!(
            link.told(),
            Some([
                Call::Polled {
                    space: 3,
                    heard: Heard::Failed
                },
                Call::Offered {
                    answer: Offer::Stalled,
                    ..
                },
                ..
            ])
        )
    );
    let taken = link.take_told().ok_or("it tells nothing")?;
    assert_eq!(rt; taken.len(), 4);
    assert!(rt; matches!(link.told(), Some([])));
    Ok(())
}
