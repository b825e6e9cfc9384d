// What STARTs are answered, and what is wanted of looks.
use crate::ground::check;
use crate::instance::{Kind, Terms};
use sle_numbers::ReturnDeliveryMode;
use std::test::Fail;

const COMPLETE: Terms = Terms {
    kind: Kind::Raf,
    mode: ReturnDeliveryMode::CompleteOnline,
    size: 2,
    latency: 5,
};

// Each diagnostic, in the order of the checks, alone and with the next one that could come too.
const ONLINE: &str = "
production halted;
start none none 2 = Specific(0);
start bad 5 2 = Specific(0);
production interrupted;
start bad 5 2 = Specific(2);
start bad bad 2 = Specific(2);
start 5 bad 2 = Specific(3);
start 5 4 2 = Specific(3);
start none bad 2 = Specific(3);
start 5 5 2 = ok;
stop = stopped;
production running;
start none 5 2 = ok;
stop = stopped;
start 5 none 2 = ok;
stop = stopped;
start none none 2 = ok;";

const OFFLINE: &str = "
production halted;
start bad none 2 = Specific(2);
start bad bad 2 = Specific(2);
start none bad 2 = Specific(3);
start 5 bad 2 = Specific(3);
start none none 2 = Specific(4);
start 5 none 2 = Specific(4);
start none 5 2 = Specific(4);
start 5 4 2 = Specific(3);
start 5 5 2 = ok;";

const CHANNELS: &str = "
production halted;
start none none 9/0/1 = Specific(0);
production running;
start bad none 9/0/1 = Specific(2);
start 5 bad 9/0/1 = Specific(3);
start 5 4 9/0/1 = Specific(3);
start none none 9/0/1 = Specific(5);
start none none 1/1/62 = Specific(5);
start none none 1/1/* = Specific(5);
start none none 1/0/63 = Specific(5);
start none none 2/1/3 = Specific(5);
start none none 1/1/63 = ok;
stop = stopped;
start none none 2/0/* = ok;
stop = stopped;
start 5 9 2/0/7 = ok;";

const OFFLINE_CHANNELS: &str = "
start none 5 9/0/1 = Specific(4);
start 5 4 9/0/1 = Specific(3);
start 5 5 9/0/1 = Specific(5);
start 5 5 1/1/63 = ok;";

// A START that is refused leaves the delivery stopped; one that is done has it step from the next
// round on, and STOP drops what is held.
const WANTS: &str = "
wants = nothing;
wants start none none 2 = front;
wants stop = nothing;
start 5 4 2 = Specific(3);
wants = nothing;
round whole = -;
archive g;
start none none 2 = ok;
wants = items;
wants get 4 = items;
wants report now = items;
wants stop = nothing;
round whole = -;
archive gg;
round whole = -;
archive ggg;
round stall = kept 2;
wants = nothing;
stop = stopped;
wants = nothing;
round whole = -;
 = nothing;
start 0 none 2 = ok;
round whole = settled 2;
round whole = -;";

#[test]
fn starts_are_answered_in_this_order(rt: HostRuntime) -> Result<(), Fail> {
    let offline = Terms {
        mode: ReturnDeliveryMode::Offline,
        ..COMPLETE
    };
    let timely = Terms {
        mode: ReturnDeliveryMode::TimelyOnline,
        ..COMPLETE
    };
    for (terms, rows) in [
        (COMPLETE, ONLINE),
        (timely, ONLINE),
        (offline, OFFLINE),
        (COMPLETE, WANTS),
    ] {
        check(&rt, rt.alloc(), &terms, rows)?;
    }
    Ok(())
}

#[test]
fn channels_are_judged_last(rt: HostRuntime) -> Result<(), Fail> {
    let complete = Terms {
        kind: Kind::Rcf,
        ..COMPLETE
    };
    let offline = Terms {
        mode: ReturnDeliveryMode::Offline,
        ..complete
    };
    for (terms, rows) in [(complete, CHANNELS), (offline, OFFLINE_CHANNELS)] {
        check(&rt, rt.alloc(), &terms, rows)?;
    }
    Ok(())
}
