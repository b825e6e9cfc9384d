// Deliveries by rounds. What is expected was worked out by hand from the rules.
use crate::ground::{Entry, Instance, check};
use sle_numbers::ReturnDeliveryMode;
use std::test::Fail;

// Four frames that any START picks, and a stop that is open behind them.
const FRAMES: Instance = Instance {
    entries: &[Entry::Small; 4],
    closes: 9,
    mode: ReturnDeliveryMode::TimelyOnline,
    size: 2,
    latency: 5,
};

// A complete delivery keeps a stalled buffer and offers it again.
const KEPT: &str = "
start;
2 0 stall = kept 0(-1) 1(1);
3 0 stall = kept 0(-1) 1(1);
3 1 whole = sent 0(-1) 1(1);
3 2 whole = -;
3 7 whole = sent 2(1);";

// A stall at each round of a timely delivery is told before the next buffer.
const UNSTALLED: &str = "
start;
4 0 whole = sent 0(-1) 1(1);
4 0 whole = sent 2(1) 3(1);
4 0 whole = sent E;
4 0 whole = -;
4 0 whole = -;";

const FIRST_STALLED: &str = "
start;
4 0 stall = discarded 2: 0(-1) 1(1);
4 0 whole = sent B 2(-1);
4 0 whole = sent 3(1);
4 0 whole = sent E;
4 0 whole = -;";

const SECOND_STALLED: &str = "
start;
4 0 whole = sent 0(-1) 1(1);
4 0 stall = discarded 2: 2(1) 3(1);
4 0 whole = sent B;
4 0 whole = sent E;
4 0 whole = -;";

const END_STALLED: &str = "
start;
4 0 whole = sent 0(-1) 1(1);
4 0 whole = sent 2(1) 3(1);
4 0 stall = kept E;
4 0 whole = sent E;
4 0 whole = -;";

// Two stalls in a row are told by one backlog.
const STALLED_TWICE: &str = "
start;
2 0 stall = discarded 2: 0(-1) 1(1);
3 0 stall = discarded 1: B 2(-1);
4 0 whole = sent B 3(-1);
4 9 whole = -;";

// A stalled backlog alone is kept, and fills a buffer of one.
const BACKLOG: &str = "
start;
1 0 stall = discarded 1: 0(-1);
2 0 stall = kept B;
2 0 whole = sent B;
2 0 whole = sent 1(-1);";

// STOP after a discard leaves it untold and drops what is held.
const STOPPED: &str = "
state = stopped true, offers false, wants false:;
start;
2 0 stall = discarded 2: 0(-1) 1(1);
4 0 waits = waits;
state = stopped false, offers true, wants false: B 2(-1);
stop;
state = stopped true, offers false, wants false:;
start;
2 0 whole = sent 0(-1) 1(1);";

// A buffer waits up to its latency, and not while the clock stands still.
const LATE: &str = "
start;
1 10 whole = -;
2 10 whole = -;
2 10 whole = -;
2 14 whole = -;
2 15 whole = sent 0(-1) 1(1);";

const NEVER_LATE: &str = "
start;
1 10 whole = -;
2 10 whole = -;
2 10 whole = -;
2 14 whole = -;
2 15 whole = -;";

const AT_ONCE: &str = "
start;
1 10 whole = sent 0(-1);
2 10 whole = sent 1(1);
2 10 whole = -;
2 14 whole = -;
2 15 whole = -;";

// A buffer is full with 524,288 octets.
const OCTETS: &str = "
start;
7 0 whole = -;
10 0 whole = sent 0(-1) 1(1) 2(1) 3(1) 4(1) 5(1) 6(1) 7(1);
10 0 whole = -;";

const MIXED: [Entry; 5] = [
    Entry::Small,
    Entry::Loss,
    Entry::Small,
    Entry::Production,
    Entry::Small,
];

// A notification ends its buffer and is due at once.
const NOTIFIED: &str = "
start;
5 0 whole = sent 0(-1) L1;
5 0 whole = sent 2(2) P3;
5 0 whole = sent 4(2);
5 0 whole = sent E;
5 0 whole = -;";

// The end of data comes once, and only with a closed stop.
const ONE: &str = "
start;
0 0 whole = -;
1 0 waits = waits;
1 0 blocked = -;
1 0 whole = sent 0(-1);
1 0 stall = kept E;
1 0 fail = failed E;";

const NONE: &str = "
start;
0 0 whole = sent E;
0 0 whole = -;";

// An instance of four frames in a mode, whose stop is closed behind so many, with buffers of a size
// and a latency.
fn frames(mode: ReturnDeliveryMode, closes: usize, size: u32, latency: u128) -> Instance<'static> {
    Instance {
        mode,
        closes,
        size,
        latency,
        ..FRAMES
    }
}

#[test]
fn frames_are_handed_over_so(rt: HostRuntime) -> Result<(), Fail> {
    let table = [
        (frames(ReturnDeliveryMode::CompleteOnline, 9, 2, 5), KEPT),
        (frames(ReturnDeliveryMode::TimelyOnline, 4, 2, 5), UNSTALLED),
        (
            frames(ReturnDeliveryMode::TimelyOnline, 4, 2, 5),
            FIRST_STALLED,
        ),
        (
            frames(ReturnDeliveryMode::TimelyOnline, 4, 2, 5),
            SECOND_STALLED,
        ),
        (
            frames(ReturnDeliveryMode::TimelyOnline, 4, 2, 5),
            END_STALLED,
        ),
        (FRAMES, STALLED_TWICE),
        (frames(ReturnDeliveryMode::TimelyOnline, 9, 1, 5), BACKLOG),
        (FRAMES, STOPPED),
        (frames(ReturnDeliveryMode::CompleteOnline, 9, 3, 5), LATE),
        (frames(ReturnDeliveryMode::Offline, 9, 3, 5), NEVER_LATE),
        (frames(ReturnDeliveryMode::TimelyOnline, 9, 3, 0), AT_ONCE),
    ];
    for (instance, rows) in table {
        check(&rt, rt.alloc(), &instance, rows)?;
    }
    Ok(())
}

// An instance of other entries.
fn of(entries: &[Entry], mode: ReturnDeliveryMode, closes: usize, size: u32) -> Instance<'_> {
    Instance {
        entries,
        closes,
        mode,
        size,
        latency: 5,
    }
}

#[test]
fn other_entries_are_handed_over_so(rt: HostRuntime) -> Result<(), Fail> {
    let table = [
        (
            of(
                &[Entry::Long; 10],
                ReturnDeliveryMode::CompleteOnline,
                99,
                100,
            ),
            OCTETS,
        ),
        (
            of(&MIXED, ReturnDeliveryMode::CompleteOnline, 5, 9),
            NOTIFIED,
        ),
        (of(&MIXED[..1], ReturnDeliveryMode::Offline, 1, 2), ONE),
        (of(&[], ReturnDeliveryMode::TimelyOnline, 0, 2), NONE),
    ];
    for (instance, rows) in table {
        check(&rt, rt.alloc(), &instance, rows)?;
    }
    Ok(())
}
