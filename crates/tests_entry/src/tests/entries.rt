// Entries and their octets.
use crate::rows::octets_of;
use crate::selection_text::frame;
use cds_time::Cds;
use record_form::{Entries, Entry, EntryFault, read_entry};
use sle_numbers::LockStatus;
use std::alloc::{AllocError, Global};
use std::process::Abort;
use std::test::Fail;

// Kind, form and fields of the time, quality, antenna, lost, octets. The last moment of all, with
// picoseconds; a frame at the ends of its ranges.
pub const ENTRIES: &str = "
01 00 4e20000003e80000 00 01 41 00000000 00000003 0010a1
    = frame Cds { days: 20000, millis: 1000, rest: Micros(0) } 0 [65] 0 [0, 16, 161]|
02 00 4e20000007d00007 030200
    = LossOfSync { at: Cds { days: 20000, millis: 2000, rest: Micros(7) }, carrier: Unknown,
    subcarrier: NotInUse, symbol: InLock }|
03 02 = Production { status: Halted }|
04 01 ffff05265bff3b9ac9ff
    = Seal { at: Cds { days: 65535, millis: 86399999, rest: Picos(999999999) } }|
01 00 4e20000003e80000 00 10 16*ff 00ffffff 00010000 65536*aa
    = frame Cds { days: 20000, millis: 1000, rest: Micros(0) } 0 [255, 255, 255, 255, 255, 255, 255,
    255, 255, 255, 255, 255, 255, 255, 255, 255] 16777215 65536 octets, all alike: true|";

// The kind; the form of the time, and milliseconds past the day's end; a frame's quality, its
// antenna, the count of lost ones; a frame of no octets, and one of 65,539; octets that end too
// early; the locks; the status; and the time of a seal.
pub const FAULTS: &str = "
05 00 4e20000003e80000 00 01 41 00000000 00000003 0010a1 = no kind of entry: 0x05|
01 02 4e20000003e80000 00 01 41 00000000 00000003 0010a1 = a field out of its range at octet 1|
01 00 4e20060003e80000 00 01 41 00000000 00000003 0010a1 = a field out of its range at octet 1|
01 00 4e20000003e80000 03 01 41 00000000 00000003 0010a1 = a field out of its range at octet 10|
01 00 4e20000003e80000 00 00 41 00000000 00000003 0010a1 = a field out of its range at octet 11|
01 00 4e20000003e80000 00 11 41 00000000 00000003 0010a1 = a field out of its range at octet 11|
01 00 4e20000003e80000 00 01 41 01000000 00000003 0010a1 = a field out of its range at octet 13|
01 00 4e20000003e80000 00 01 41 00000000 00000000 0010a1 = a field out of its range at octet 17|
01 00 4e20000003e80000 00 01 41 00000000 00010003 0010a1 = a field out of its range at octet 17|
01 00 4e20000003e80000 00 01 41 00000000 00000004 0010a1 = the entry is cut|
02 00 4e20000007d00007 040200 = a field out of its range at octet 10|
02 00 4e20000007d00007 030400 = a field out of its range at octet 11|
02 00 4e20000007d00007 030204 = a field out of its range at octet 12|
03 03 = a field out of its range at octet 1|
04 01 ffff05265bff3b9acaff = a field out of its range at octet 1|";

// A frame gives its time, which has the octets 1 to 9, whatever follows, also behind another entry.
pub const TIMES: &str = "
0 01 00 4e20000003e80000 00 01 41 00000000 00000003 0010a1
    = Some(Cds { days: 20000, millis: 1000, rest: Micros(0) })|
0 01 00 4e20000003e80000 = Some(Cds { days: 20000, millis: 1000, rest: Micros(0) })|
0 01 00 4e20000003e800 = None|
0 = None|
0 01 00 4e20000003e80000 03 01 41 00000000 00000003 0010a1
    = Some(Cds { days: 20000, millis: 1000, rest: Micros(0) })|
0 02 00 4e20000007d00007 030200 = None|
0 03 02 = None|
0 04 01 ffff05265bff3b9ac9ff = None|
0 01 00 4e20060003e80000 00 01 41 00000000 00000003 0010a1 = None|
13 02 00 4e20000007d00007 030200 01 00 4e20000003e80000 00 01 41 00000000 00000003 0010a1
    = Some(Cds { days: 20000, millis: 1000, rest: Micros(0) })|";

// Each kind, and where it ends, also behind another entry; an entry that is cut, no kind of entry,
// and a time that names no moment.
pub const LENT: &str = "
0 01 00 4e20000003e80000 00 01 41 00000000 00000003 0010a1
    = Frame { ert: Cds { days: 20000, millis: 1000, rest: Micros(0) }, quality: Good, antenna: [65],
    lost: 0, octets: [0, 16, 161] } up to 24|
13 02 00 4e20000007d00007 030200 01 00 4e20000003e80000 00 01 41 00000000 00000003 0010a1
    = Frame { ert: Cds { days: 20000, millis: 1000, rest: Micros(0) }, quality: Good, antenna: [65],
    lost: 0, octets: [0, 16, 161] } up to 37|
0 02 00 4e20000007d00007 030200
    = LossOfSync { at: Cds { days: 20000, millis: 2000, rest: Micros(7) }, carrier: Unknown,
    subcarrier: NotInUse, symbol: InLock } up to 13|
0 03 02 = Production { status: Halted } up to 2|
2 03 02 04 01 ffff05265bff3b9ac9ff
    = Seal { at: Cds { days: 65535, millis: 86399999, rest: Picos(999999999) } } up to 14|
2 03 02 01 00 4e20000003e80000 00 01 41 00000000 00000004 0010a1 = the entry is cut|
2 03 02 05 00 4e20000003e80000 = no kind of entry: 0x05|
2 03 02 04 01 ffff05265bff3b9acaff = a field out of its range at octet 3|";

const FRAME: &str = "01 00 4e20000003e80000 00 01 41 00000000 00000003 0010a1";

fn is_cut(alloc: Global, octets: &[u8]) -> bool {
    matches!(read_entry(alloc, octets), Err(EntryFault::Cut))
}

#[test]
fn an_entry_that_ends_too_early_is_cut(rt: HostRuntime) -> Result<(), Fail> {
    let octets = octets_of(rt.alloc(), FRAME)?;
    for end in 0..octets.len() {
        assert!(rt; is_cut(rt.alloc(), &octets[..end]));
    }
    Ok(())
}

#[test]
fn a_frame_of_65537_octets_is_valid_and_not_storable(rt: HostRuntime) -> Result<(), Fail> {
    let long = frame(rt.alloc(), "1000 0 65537*aa")?;
    assert_eq!(rt; (long.is_valid(), long.is_storable()), (true, false));
    Ok(())
}

fn two_entries(alloc: Global) -> Result<Entries, AllocError> {
    let mut entries = Entries::new(alloc);
    entries.push(Entry::LossOfSync {
        at: Cds::EPOCH,
        carrier: LockStatus::Unknown,
        subcarrier: LockStatus::NotInUse,
        symbol: LockStatus::InLock,
    })?;
    entries.push(Entry::Seal { at: Cds::EPOCH })?;
    Ok(entries)
}

fn is_in_order(entries: &[Entry]) -> bool {
    matches!(entries, [Entry::LossOfSync { .. }, Entry::Seal { .. }])
}

#[test]
fn entries_are_kept_in_their_order(rt: HostRuntime) -> Result<(), Fail> {
    let entries = two_entries(rt.alloc())?;
    assert!(rt; entries.len() == 2 && is_in_order(entries.as_slice()));
    Ok(())
}

#[test]
fn faults_say_what_they_are(rt: HostRuntime) -> Result<(), Fail> {
    let told = format!(in rt.alloc();
        "{}, {}, {}, {}",
        EntryFault::Cut,
        EntryFault::BadKind { found: 9 },
        EntryFault::BadField { place: 7 },
        EntryFault::Memory
    )?;
    assert_eq!(rt;
        told.as_str(),
        "the entry is cut, no kind of entry: 0x09, a field out of its range at octet 7, \
        out of memory"
    );
    Ok(())
}
