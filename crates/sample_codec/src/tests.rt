use super::*;
use ber_core::{BerFault, Writer};
use ber_shape::laws::sequence_is_exact;
use ber_shape::{Octet, Sequence};
use cds_time::{Cds, Rest};
use sle_common::Credentials;
use std::test::Fail;

// Put together by hand from X.690: credentials of 8 octets, invoke id 300, a time in the form with
// microseconds, and the items `a` and `bcd`. `openssl asn1parse -inform DER` shows the same
// elements at the same places.
const FULL: [u8; 38] = [
    0xa0, 36, 0x81, 8, 1, 2, 3, 4, 5, 6, 7, 8, 2, 2, 1, 0x2c, 0xa1, 10, 0x80, 8, 0x4e, 0x20, 0, 0,
    0x03, 0xe8, 0, 7, 0x30, 8, 4, 1, 0x61, 4, 3, 0x62, 0x63, 0x64,
];

#[test]
fn a_full_sample_is_read(rt: HostRuntime) -> Result<(), Fail> {
    let mut sample = Sample::decode(&FULL).ok().ok_or("a sample")?;
    assert_eq!(rt;
        sample.credentials,
        Credentials::Used(&[1, 2, 3, 4, 5, 6, 7, 8])
    );
    assert_eq!(rt; sample.invoke, 300);
    let time = Cds {
        days: 20_000,
        millis: 1_000,
        rest: Rest::Micros(7),
    };
    assert_eq!(rt; sample.time, Some(time));
    assert_eq!(rt; sample.items.next(), Some(b"a".as_slice()));
    assert_eq!(rt; sample.items.next(), Some(b"bcd".as_slice()));
    assert_eq!(rt; sample.items.next(), None);
    Ok(())
}

#[test]
fn a_full_sample_is_written(rt: HostRuntime) -> Result<(), Fail> {
    let Ok(sample) = Sample::decode(&FULL) else {
        return Err("a sample".into());
    };
    let mut writer = Writer::new(rt.alloc(), 50).ok().ok_or("memory")?;
    let length = sample.length();
    assert_eq!(rt; length, 38);
    assert!(rt; length <= writer.room());
    sample.encode(&mut writer);
    assert_eq!(rt; writer.octets(), FULL.as_slice());
    Ok(())
}

// Unused credentials, no time and no items, with lengths of several octets.
const LONG_LENGTHS: [u8; 18] = [
    0xa0, 0x82, 0, 14, 0x80, 0x81, 0, 2, 0x81, 1, 5, 0x80, 0, 0x30, 0x83, 0, 0, 0,
];

#[test]
fn the_least_sample_is_read_with_long_lengths(rt: HostRuntime) -> Result<(), Fail> {
    let mut sample = Sample::decode(&LONG_LENGTHS).ok().ok_or("a sample")?;
    assert_eq!(rt; sample.credentials, Credentials::Unused);
    assert_eq!(rt; sample.invoke, 5);
    assert_eq!(rt; sample.time, None);
    assert_eq!(rt; sample.items.next(), None);
    Ok(())
}

// Octets and their first fault, worked out by hand. In the last ones a ninth item is surplus.
const FAULTS: [(&[u8], BerFault); 13] = [
    (&[], BerFault::Cut { place: 0 }),
    (&[0xa0, 9, 0x80, 0], BerFault::Cut { place: 0 }),
    (
        &[0x30, 0],
        BerFault::WrongTag {
            place: 0,
            found: 0x30,
        },
    ),
    (
        &[0xa0, 2, 0x82, 0],
        BerFault::WrongTag {
            place: 2,
            found: 0x82,
        },
    ),
    (&[0xa0, 0], BerFault::BadLength { place: 2 }),
    (&[0xa0, 3, 0x80, 1, 0], BerFault::BadContent { place: 4 }),
    (&[0xa0, 4, 0x81, 2, 0, 0], BerFault::BadContent { place: 4 }),
    (
        &[0xa0, 7, 0x80, 0, 2, 3, 1, 0, 0],
        BerFault::BadContent { place: 6 },
    ),
    (
        &[0xa0, 11, 0x80, 0, 2, 1, 0, 0xa1, 4, 0x80, 0, 5, 0],
        BerFault::BadContent { place: 11 },
    ),
    (
        &[0xa0, 11, 0x80, 0, 2, 1, 0, 0x80, 0, 0x30, 2, 4, 0],
        BerFault::BadContent { place: 13 },
    ),
    (
        &[0xa0, 11, 0x80, 0, 2, 1, 0, 0x80, 0, 0x30, 0, 5, 0],
        BerFault::BadLength { place: 11 },
    ),
    (
        &[0xa0, 9, 0x80, 0, 2, 1, 0, 0x80, 0, 0x30, 0, 7],
        BerFault::BadLength { place: 11 },
    ),
    (
        &[
            0xa0, 36, 0x80, 0, 2, 1, 0, 0x80, 0, 0x30, 27, 4, 1, 1, 4, 1, 2, 4, 1, 3, 4, 1, 4, 4,
            1, 5, 4, 1, 6, 4, 1, 7, 4, 1, 8, 4, 1, 9,
        ],
        BerFault::BadLength { place: 35 },
    ),
];

#[test]
fn the_first_fault_is_named(rt: HostRuntime) {
    for (octets, fault) in FAULTS {
        assert_eq!(rt; Sample::decode(octets).err(), Some(fault));
    }
}

#[test]
fn the_law_on_sequences_speaks_of_samples() {
    sequence_is_exact::<Octet<0xa0>, Sample<'static>>();
}
