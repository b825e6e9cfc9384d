// The forward machine by scripts of its calls. What is expected was written by hand from the rules.
use crate::script::check;
use cltu_queue::Queue;
use std::marker::Send;
use std::test::Fail;

// How many octets a queue has room for, and rows.
const SCRIPTS: [(u32, &str); 12] = [
    (1_000, NEW),
    (1_000, EXPIRED),
    (1_000, LAST),
    (1_000, HALTED),
    (1_000, IN_AIR),
    (50, DIAGNOSTICS),
    (1_000, WINDOW),
    (1_000, RESTS),
    (1_000, REPLACED),
    (1_000, APPENDED),
    (1_000, OTHER_RUN),
    (200, FULL),
];

#[test]
fn scripts_answer_so(rt: HostRuntime) -> Result<(), Fail> {
    for (room, rows) in SCRIPTS {
        check(&rt, rt.alloc(), room, rows)?;
    }
    Ok(())
}

fn goes_to_a_thread<T: Send>(_: &T) {}

#[test]
fn a_queue_may_go_to_a_thread(rt: HostRuntime) -> Result<(), Fail> {
    let queue = Queue::new(rt.alloc(), 1_000, 100)?;
    goes_to_a_thread(&queue);
    assert_eq!(rt; queue.view().free, 1_000);
    Ok(())
}

const NEW: &str = "
view = UplinkView { processed: None, ok: None, production: Operational, status: Nominal,
    received: 0, taken: 0, radiated: 0, free: 1000 };
take 0 = idle;
notice = None;";

// CLTUs 7, 8 and 9, of which 8 has expired when 7 was radiated.
const EXPIRED: &str = "
start 7 = ok;
send 7 none micros/10 0 quiet 3 0 = next 8 free 997;
send 8 none micros/9 0 quiet 3 0 = next 9 free 994;
send 9 none none 0 quiet 3 0 = next 10 free 991;
take 10000000 = radiate 1 7 3;
done 1 7 10000000;
take 10000000 = expired 8;
notice = Some(Notice { kind: SlduExpired, processed: Some { id: 8, start: None, status: Expired },
    ok: Some { id: 7, stop: Cds { days: 20000, millis: 0, rest: Micros(10) } },
    production: Operational, status: Nominal });
send 10 none none 0 quiet 3 10000000 = refused 0 next 10 free 1000;
take 10000000 = idle;";

// The last identification, and a CLTU of a stopped run whose end comes in the next run.
const LAST: &str = "
start 4294967295 = ok;
send 4294967295 none none 0 quiet 3 0 = next 4294967295 free 997;
send 0 none none 0 quiet 3 0 = refused 2 next 4294967295 free 997;
send 4294967295 none none 0 quiet 3 0 = refused 2 next 4294967295 free 997;
take 0 = radiate 1 4294967295 3;
stop;
start 5 = ok;
send 5 none none 0 quiet 3 0 = next 6 free 997;
take 0 = idle;
done 1 4294967295 0;
notice = None;
take 0 = radiate 2 5 3;";

// Production halted in a run, and its diagnostics of TRANSFER-DATA and START.
const HALTED: &str = "
start 1 = ok;
uplink 3 0;
notice = Some(Notice { kind: ProductionHalted, processed: None, ok: None, production: Halted,
    status: UplinkStatusNotAvailable });
send 1 none none 0 quiet 1 0 = refused 0 next 1 free 1000;
stop;
start 1 = refused 0;
uplink 2 0;
start 1 = refused 1;
uplink 1 0;
start 1 = ok;
notice = None;";

// A CLTU in the air counts as processed and not as radiated, and its octets are free again.
const IN_AIR: &str = "
start 7 = ok;
send 7 none none 0 quiet 3 0 = next 8 free 997;
take 0 = radiate 1 7 3;
view = UplinkView { processed: Some { id: 7,
    start: Some(Cds { days: 20000, millis: 0, rest: Micros(0) }), status: RadiationStarted },
    ok: None, production: Operational, status: Nominal, received: 1, taken: 1, radiated: 0,
    free: 1000 };";

// Each CLTU breaks the rule of its line and of all later ones, where one CLTU can.
const DIAGNOSTICS: &str = "
start 1 = ok;
send 2 millis/86400000 micros/8 600000001 told 101 9000000 = refused 2 next 1 free 50;
send 1 millis/86400000 micros/8 600000001 told 101 9000000 = refused 4 next 1 free 50;
send 1 micros/8 millis/86400000 600000001 told 101 9000000 = refused 4 next 1 free 50;
send 1 micros/9 micros/8 600000001 told 101 9000000 = refused 3 next 1 free 50;
send 1 micros/8 micros/8 600000001 told 101 9000000 = refused 5 next 1 free 50;
send 1 none none 600000001 told 101 9000000 = refused 6 next 1 free 50;
send 1 none none 600000000 told 101 9000000 = refused 7 next 1 free 50;
send 1 none none 600000000 told 51 9000000 = refused 1 next 1 free 50;
uplink 2 3;
send 2 millis/86400000 micros/8 600000001 told 101 9000000 = refused 0 next 1 free 50;";

// A window is closed at both ends, to the picosecond.
const WINDOW: &str = "
start 0 = ok;
send 0 picos/500 picos/500 0 quiet 1 501 = refused 5 next 0 free 1000;
send 0 picos/500 picos/500 0 quiet 1 500 = next 1 free 999;
take 499 = waits 500;
take 500 = radiate 1 0 1;
done 1 0 500;
send 1 none picos/700 0 quiet 1 500 = next 2 free 999;
take 701 = expired 1;";

// The uplink rests from the end of a radiation on, over STOP and START too.
const RESTS: &str = "
start 0 = ok;
send 0 none none 100 quiet 1 0 = next 1 free 999;
take 0 = radiate 1 0 1;
done 1 0 7000000;
stop;
start 9 = ok;
send 9 none none 0 quiet 1 7000000 = next 10 free 999;
take 106999999 = waits 107000000;
take 107000000 = radiate 2 9 1;";

// A notice of production replaces a last one of production, and no other; that of a failed
// radiation is appended.
const REPLACED: &str = "
start 0 = ok;
send 0 none none 0 told 1 0 = next 1 free 999;
take 0 = radiate 1 0 1;
uplink 1 3;
uplink 0 3;
uplink 0 1;
uplink 3 1;
uplink 2 1;
kinds = 2;
uplink 0 1;
done 1 0 0;
uplink 2 1;
uplink 0 1;
kinds = 4 0 5 4;";

const APPENDED: &str = "
start 3 = ok;
send 3 none none 0 quiet 2 0 = next 4 free 998;
take 0 = radiate 1 3 2;
uplink 1 1;
uplink 0 1;
broken 1 3;
kinds = 4 2;
stop;
start 0 = refused 1;";

// The end of a CLTU that isn't in the air changes nothing, and one of a run that isn't started
// only clears the air.
const OTHER_RUN: &str = "
start 0 = ok;
send 0 none none 0 quiet 1 0 = next 1 free 999;
send 1 none none 0 quiet 1 0 = next 2 free 998;
take 0 = radiate 1 0 1;
done 1 1 0;
done 2 0 0;
broken 1 1;
broken 2 0;
take 0 = idle;
stop;
broken 1 0;
start 1 = ok;
send 1 none none 0 quiet 1 0 = next 2 free 999;
take 0 = radiate 2 1 1;
kinds =;
broken 2 1;
kinds = 2;";

// A queue takes as many octets as it has room for, and not one more.
const FULL: &str = "
start 0 = ok;
send 0 none none 0 quiet 100 0 = next 1 free 100;
send 1 none none 0 quiet 100 0 = next 2 free 0;
send 2 none none 0 quiet 1 0 = refused 1 next 2 free 0;
take 0 = radiate 1 0 100;
send 2 none none 0 quiet 1 0 = next 3 free 99;";
