// Clocks over a list, over a machine that stands still, and over this one.
use cds_time::{Cds, Clock, MachineTime, MemoryClock, Rest, SystemClock};
use std::test::Fail;
use std::time::Duration;
use std::{io, rt};

// Through the bound alone, as callers read a clock, which they may drop.
fn two_readings<C: Clock>(mut clock: C) -> [Cds; 2] {
    [clock.now(), clock.now()]
}

const LAST: Cds = Cds {
    days: 65_535,
    millis: 86_399_999,
    rest: Rest::Micros(999),
};

#[test]
fn a_list_is_given_in_order_and_then_its_last_again(rt: HostRuntime) -> Result<(), Fail> {
    let both = vec![in rt.alloc(); Cds::EPOCH, LAST]?;
    let one = vec![in rt.alloc(); LAST]?;
    let none = Vec::new(rt.alloc());
    for (list, readings) in [
        (both, [Cds::EPOCH, LAST]),
        (one, [LAST, LAST]),
        (none, [Cds::EPOCH, Cds::EPOCH]),
    ] {
        assert_eq!(rt; two_readings(MemoryClock::new(list)), readings);
    }
    Ok(())
}

// A runtime whose clock stands still, or can't be read.
#[derive(Clone, Copy)]
struct Still(Option<Duration>);

impl rt::Clock for Still {
    fn monotonic(&self) -> io::Result<Duration> {
        self.since_1970()
    }

    fn since_1970(&self) -> io::Result<Duration> {
        self.0.ok_or(io::ErrorKind::Other.into())
    }
}

#[test]
fn a_reading_is_the_time_that_the_machine_shows(rt: HostRuntime) {
    for (shown, reading) in [
        (Some(Duration::new(5_283_619_199, 999_999_999)), LAST),
        (Some(Duration::new(5_283_619_200, 0)), Cds::EPOCH),
        (None, Cds::EPOCH),
    ] {
        let clock = SystemClock::new(MachineTime(Still(shown)));
        assert_eq!(rt; two_readings(clock), [reading, reading]);
    }
}

#[test]
fn the_machine_shows_a_time_of_this_century(rt: HostRuntime) {
    let [before, after] = two_readings(SystemClock::new(MachineTime(&rt)));
    // 2020-01-01 is 22,645 days after 1958-01-01, and 2100-01-01 51,865.
    assert!(rt; 22_645 <= before.days && before.days < 51_865);
    assert!(rt; before.moment().is_some() && after.moment().is_some());
}
