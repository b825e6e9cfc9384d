// Files as they are recovered, whole and batch by batch: written out by hand from their form, and
// each fault with its place.

use crate::journals::FILE;
use crate::script::recover;
use disk_model::MemoryDisk;
use gate_journal::{BatchFault, Batches, JournalFault};
use std::alloc::{AllocError, Global};
use std::test::Fail;

// Behind the first frame's batch stands one of a loss of synchronisation, a production status, a
// frame of one octet with an antenna of two and picoseconds, and a seal at its time; and behind the
// gate that is shut, what was there before.
const MIXED: &[u8] =
    b"SLEA\x00\x00\x00\x01\xa5\x00\x00\x00\x18\x00\x01\x01\x00\x4e\x20\x00\x00\x03\xe8\x00\x00\
    \x00\x01A\x00\x00\x00\x00\x00\x00\x00\x03\x00\x10\xa1\
    \xa5\x00\x00\x00\x34\x00\x04\x02\x00\x4e\x20\x00\x00\x07\xd0\x00\x07\x03\x02\x00\x03\x02\x01\
    \x01\x4e\x20\x00\x00\x07\xd0\x00\x00\x00\x07\x02\x02AB\x00\x00\x01\x00\x00\x00\x00\x01\xff\x04\
    \x01\x4e\x20\x00\x00\x07\xd0\x00\x00\x00\x07\x00\xa5\x00";

// Behind it stands a frame at 20000 days: a second before the first frame. Its time begins at octet
// 47 and its quality at 56; with a 4 at octet 52 it is 1024
// milliseconds later than those days, and behind the first.
const LATE: &[u8] =
    b"SLEA\x00\x00\x00\x01\xa5\x00\x00\x00\x18\x00\x01\x01\x00\x4e\x20\x00\x00\x03\xe8\x00\x00\
    \x00\x01A\x00\x00\x00\x00\x00\x00\x00\x03\x00\x10\xa1\
    \xa5\x00\x00\x00\x18\x00\x01\x01\x00\x4e\x20\x00\x00\x00\x00\x00\x00\x00\x01A\x00\x00\x00\x00\
    \x00\x00\x00\x03\x00\x10\xa2\x00";

// A file, of which so many octets are there, and one is another: its place and its value. What it
// is recovered as.
const ROWS: [(&[u8], usize, (usize, u8), &str); 26] = [
    (FILE, 40, (0, 0x53), "40: 1"),
    (MIXED, 101, (0, 0x53), "99: 1 - - 2 -"),
    (FILE, 0, (0, 0), "no journal: octet 0 isn't the header's"),
    (FILE, 7, (0, 0x53), "no journal: octet 7 isn't the header's"),
    (FILE, 8, (0, 0x53), "damaged at octet 8"),
    (FILE, 9, (0, 0x53), "damaged at octet 9"),
    (FILE, 38, (0, 0x53), "damaged at octet 38"),
    (FILE, 39, (0, 0x53), "damaged at octet 39"),
    (
        FILE,
        40,
        (2, 0x44),
        "no journal: octet 2 isn't the header's",
    ),
    // The stated end lies before and behind that of the entry; no entry; 257 of them.
    (FILE, 40, (12, 0x17), "damaged at octet 38"),
    (FILE, 40, (12, 0x19), "damaged at octet 39"),
    (FILE, 40, (14, 0), "damaged at octet 13"),
    (FILE, 40, (13, 1), "damaged at octet 13"),
    // A second entry would begin at the next gate.
    (FILE, 40, (14, 2), "damaged at octet 39"),
    (FILE, 40, (15, 5), "damaged at octet 15"),
    (FILE, 40, (16, 2), "damaged at octet 16"),
    (FILE, 40, (25, 3), "damaged at octet 25"),
    // A frame that is late is named before later fields.
    (LATE, 71, (0, 0x53), "damaged at octet 47"),
    (LATE, 71, (56, 3), "damaged at octet 47"),
    (LATE, 71, (57, 0), "damaged at octet 47"),
    (LATE, 57, (0, 0x53), "damaged at octet 47"),
    (LATE, 56, (0, 0x53), "damaged at octet 47"),
    (LATE, 55, (0, 0x53), "damaged at octet 55"),
    (LATE, 71, (43, 0), "damaged at octet 46"),
    (LATE, 71, (52, 4), "71: 1 1"),
    (LATE, 56, (52, 4), "damaged at octet 56"),
];

// What such a file is recovered as.
fn recovered(
    alloc: Global,
    file: &[u8],
    size: usize,
    (place, value): (usize, u8),
) -> Result<String, AllocError> {
    let mut octets = Vec::from_slice(alloc, file)?;
    octets.truncate(size);
    if let Some(octet) = octets.get_mut(place) {
        *octet = value;
    }
    recover(alloc, MemoryDisk::holding(alloc, &octets)?).1
}

#[test]
fn files_are_recovered_so(rt: HostRuntime) -> Result<(), Fail> {
    for (file, size, other, text) in ROWS {
        let told = recovered(rt.alloc(), file, size, other)?;
        assert_eq!(rt; told.as_str(), text, "{size} {other:?}");
    }
    Ok(())
}

// The header, and batches of one frame of 65,536 octets each.
fn large_file(alloc: Global, batches: u32) -> Result<Vec<u8>, AllocError> {
    let mut file = Vec::from_slice(alloc, b"SLEA\x00\x00\x00\x01")?;
    for _ in 0..batches {
        file.extend_from_slice(
            b"\xa5\x00\x01\x00\x15\x00\x01\x01\x00\x4e\x20\x00\x00\x03\xe8\x00\x00\
            \x00\x01A\x00\x00\x00\x00\x00\x01\x00\x00",
        )?;
        let end = file.len().saturating_add(65_536);
        file.resize(end, 0)?;
    }
    Ok(file)
}

// A file is held in memory before it is read, so that want of memory would come first: with ample
// memory it doesn't, behind more than a megabyte.
#[test]
fn damage_behind_a_megabyte_is_told(rt: HostRuntime) -> Result<(), Fail> {
    let mut file = large_file(rt.alloc(), 16)?;
    file.push(0xa5)?;
    let disk = MemoryDisk::holding(rt.alloc(), &file)?;
    let told = recover(rt.alloc(), disk).1?;
    assert_eq!(rt; told.as_str(), "damaged at octet 1049033");
    Ok(())
}

// How many entries a reading lends.
fn count(batches: &Batches) -> usize {
    let mut batch = batches.batch();
    let mut count = 0usize;
    // (a batch has 256 entries at most)
    for _ in 0..256 {
        if batch.next().is_some() {
            count = count.saturating_add(1);
        }
    }
    count
}

#[test]
fn a_file_is_read_batch_by_batch(rt: HostRuntime) -> Result<(), Fail> {
    let mut disk = MemoryDisk::holding(rt.alloc(), MIXED)?;
    let mut batches = Batches::open(rt.alloc(), &mut disk)?;
    for lent in [1, 4] {
        assert_eq!(rt; batches.next(&mut disk), Ok(true));
        assert_eq!(rt; count(&batches), lent);
    }
    assert_eq!(rt; batches.next(&mut disk), Ok(false));
    assert_eq!(rt; batches.gate(), 98);
    Ok(())
}

#[test]
fn a_file_that_is_late_is_refused_at_its_batch(rt: HostRuntime) -> Result<(), Fail> {
    let mut disk = MemoryDisk::holding(rt.alloc(), LATE)?;
    let mut batches = Batches::open(rt.alloc(), &mut disk)?;
    assert_eq!(rt; batches.next(&mut disk), Ok(true));
    assert_eq!(rt; batches.next(&mut disk), Err(BatchFault::Unfit));
    Ok(())
}

// What no row says.
#[test]
fn faults_say_what_they_are(rt: HostRuntime) -> Result<(), Fail> {
    let table = [
        (
            JournalFault::Full { need: 31, free: 5 },
            "full: 31 octets wanted, 5 free",
        ),
        (JournalFault::Stale, "stale"),
        (JournalFault::Memory, "out of memory"),
    ];
    for (fault, text) in table {
        assert_eq!(rt; format!(in rt.alloc(); "{fault}")?.as_str(), text);
    }
    Ok(())
}
