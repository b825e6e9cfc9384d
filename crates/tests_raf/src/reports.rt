// When reports are given, and what they tell.
use crate::ground::check;
use crate::instance::{Kind, Terms};
use sle_numbers::ReturnDeliveryMode;
use std::test::Fail;

const COMPLETE: Terms = Terms {
    kind: Kind::Raf,
    mode: ReturnDeliveryMode::CompleteOnline,
    size: 2,
    latency: 5,
};

const OFFLINE: &str = "
report now = Specific(0);
report stop = Specific(0);
report 1 = Specific(0);
report 2 = Specific(0);
due = -;
get 26 = Cycle(None);";

// With no cycle, and with one that runs.
const REQUESTS: &str = "
due = -;
report stop = Specific(1);
report 1 = Specific(2);
report 601 = Specific(2);
report 0 = Specific(2);
due = -;
report now = ok;
due = 0 of 0, 3333 0;
due = -;
report stop = Specific(1);
report 600 = ok;
due = 0 of 0, 3333 0;
report 1 = Specific(2);
get 26 = Cycle(Some(600));
due = -;
report now = ok;
due = 0 of 0, 3333 0;
report stop = ok;
due = -;
report stop = Specific(1);
at 4000000;
due = -;";

// A report each two seconds from the last one on; a report asked for moves the next one, and another
// cycle takes the place of the one before. It goes on over START and STOP.
const CYCLES: &str = "
at 1000;
report 2 = ok;
due = 0 of 0, 3333 0;
at 2999;
due = -;
at 3000;
due = 0 of 0, 3333 0;
due = -;
at 4500;
report now = ok;
due = 0 of 0, 3333 0;
at 6499;
due = -;
start none none 2 = ok;
at 6500;
due = 0 of 0, 3333 0;
stop = stopped;
at 9000;
due = 0 of 0, 3333 0;
report 3 = ok;
due = 0 of 0, 3333 0;
at 11999;
due = -;
at 12000;
due = 0 of 0, 3333 0;
at 20000;
due = 0 of 0, 3333 0;
at 22999;
due = -;
at 23000;
due = 0 of 0, 3333 0;";

// Frames count where they were taken, from the BIND on, over STARTs; what is held, stalls or is
// discarded doesn't. Locks and production are the look's.
const COUNTS: &str = "
start none none 2 = ok;
archive gL;
report now = ok;
due = 0 of 0, 1230 0;
round whole = settled 2;
report now = ok;
due = 1 of 1, 1230 0;
archive gLeu;
round stall = settled 2;
report now = ok;
due = 1 of 1, 0000 0;
archive gLeug;
round fail = kept 2;
report now = ok;
due = 1 of 1, 0000 0;
round whole = settled 2;
report now = ok;
due = 2 of 2, 0000 0;
archive gLeugue;
round whole = settled 2;
stop = stopped;
production halted;
report now = ok;
due = 2 of 4, 0000 2;
production interrupted;
start none none 2 = ok;
archive gLeuguegg;
round whole = settled 2;
report now = ok;
due = 4 of 6, 0000 1;";

#[test]
fn reports_are_given_so(rt: HostRuntime) -> Result<(), Fail> {
    let offline = Terms {
        mode: ReturnDeliveryMode::Offline,
        ..COMPLETE
    };
    let timely = Terms {
        mode: ReturnDeliveryMode::TimelyOnline,
        ..COMPLETE
    };
    for (terms, rows) in [
        (offline, OFFLINE),
        (COMPLETE, REQUESTS),
        (timely, CYCLES),
        (timely, COUNTS),
    ] {
        check(&rt, rt.alloc(), &terms, rows)?;
    }
    Ok(())
}

#[test]
fn reports_of_channels_are_given_so(rt: HostRuntime) -> Result<(), Fail> {
    let channel = Terms {
        kind: Kind::Rcf,
        ..COMPLETE
    };
    let offline = Terms {
        mode: ReturnDeliveryMode::Offline,
        ..channel
    };
    for (terms, rows) in [(offline, OFFLINE), (channel, REQUESTS)] {
        check(&rt, rt.alloc(), &terms, rows)?;
    }
    Ok(())
}
