// Fields, octets, moments and Unix times.
use cds_time::{Cds, MOMENT_END, Rest};
use std::time::Duration;

// 20000 days are 1,728,000,000 seconds; the moments were worked out with Python's integers.
const MOMENTS: [(u16, u32, Rest, Option<u128>); 10] = [
    (0, 0, Rest::Micros(0), Some(0)),
    (0, 0, Rest::Picos(1), Some(1)),
    (0, 1, Rest::Micros(1), Some(1_001_000_000)),
    (
        20_000,
        1_000,
        Rest::Micros(0),
        Some(1_728_000_001_000_000_000_000),
    ),
    (
        20_000,
        0,
        Rest::Picos(999_999_999),
        Some(1_728_000_000_000_999_999_999),
    ),
    (
        65_535,
        86_399_999,
        Rest::Micros(999),
        Some(MOMENT_END - 1_000_000),
    ),
    (
        65_535,
        86_399_999,
        Rest::Picos(999_999_999),
        Some(MOMENT_END - 1),
    ),
    (0, 86_400_000, Rest::Micros(0), None),
    (0, 0, Rest::Micros(1_000), None),
    (0, 0, Rest::Picos(1_000_000_000), None),
];

#[test]
fn fields_name_the_moment_of_the_standard(rt: HostRuntime) {
    for (days, millis, rest, moment) in MOMENTS {
        let time = Cds { days, millis, rest };
        assert_eq!(rt; time.moment(), moment, "at {days}/{millis}");
    }
}

fn at(millis: u32, rest: Rest) -> Cds {
    Cds {
        days: 20_000,
        millis,
        rest,
    }
}

#[test]
fn octets_and_fields_agree(rt: HostRuntime) {
    let micro = [0x4e, 0x20, 0, 0, 0x03, 0xe8, 0x01, 0x02];
    let pico = [0x4e, 0x20, 0, 0, 0x03, 0xe8, 0x3b, 0x9a, 0xc9, 0xff];
    let mut octets = [0xaa; 10];
    let time = Cds::from_micro(&micro);
    assert_eq!(rt; time, at(1_000, Rest::Micros(258)));
    assert_eq!(rt; time.put(&mut octets), 8);
    assert_eq!(rt;
        octets,
        [0x4e, 0x20, 0, 0, 0x03, 0xe8, 0x01, 0x02, 0xaa, 0xaa]
    );
    let time = Cds::from_pico(&pico);
    assert_eq!(rt; time, at(1_000, Rest::Picos(999_999_999)));
    assert_eq!(rt; time.put(&mut octets), 10);
    assert_eq!(rt; octets, pico);
}

// Seconds, nanoseconds, and the fields: worked out with Python's datetime.
const UNIX_TIMES: [(u64, u32, u16, u32, u16); 8] = [
    (0, 0, 4_383, 0, 0),
    (0, 999, 4_383, 0, 0),
    (0, 1_000, 4_383, 0, 1),
    (86_399, 999_999_999, 4_383, 86_399_999, 999),
    (86_400, 0, 4_384, 0, 0),
    // 2000-02-29T12:34:56.789012 and 2026-11-27T00:00:00
    (951_827_696, 789_012_345, 15_399, 45_296_789, 12),
    (1_795_737_600, 0, 25_167, 0, 0),
    // 2137-06-06T23:59:59.999999, the last microsecond
    (5_283_619_199, 999_999_999, 65_535, 86_399_999, 999),
];

#[test]
fn unix_times_have_the_days_of_the_calendar(rt: HostRuntime) {
    for (seconds, nanos, days, millis, micros) in UNIX_TIMES {
        let rest = Rest::Micros(micros);
        let time = Cds { days, millis, rest };
        let since_1970 = Duration::new(seconds, nanos);
        assert_eq!(rt; Cds::of_unix_time(since_1970), Some(time), "at {seconds}");
    }
    for seconds in [5_283_619_200, u64::MAX] {
        assert_eq!(rt; Cds::of_unix_time(Duration::new(seconds, 0)), None);
    }
}

#[test]
fn a_moment_is_rounded_down_to_the_microsecond(rt: HostRuntime) {
    let time = Cds::of_moment(1_728_000_001_000_001_999_999);
    assert_eq!(rt; time, at(1_000, Rest::Micros(1)));
}
