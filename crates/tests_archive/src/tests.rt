// An archive through its calls. A file of no entries has 9 octets, a batch 7 besides its entries, a
// frame of three octets 24 and a seal 10.

use crate::script::play;
use disk_model::MemoryDisk;
use frame_archive::{ArchiveFault, OfferFault, open_archive};
use std::alloc::{AllocError, Global};
use std::test::Fail;

const CAPACITY: u64 = 268_435_456;

// A capacity, steps, and what they answer.
const SCRIPTS: [(u64, &str, &str); 15] = [
    // A file is full at its last octet: two frames stored one by one use 71 octets, and a seal
    // wants 10 and a batch's 7. Behind those that wait the 7 are counted once.
    (
        71,
        "frame-1 store frame-2 store seal-2",
        "taken; stored 1: 1; taken; stored 2: 2; full: 17 octets wanted, 0 free; \
         2 in 71, 0 wait",
    ),
    (
        70,
        "frame-1 store frame-2 store seal-2",
        "taken; stored 1: 1; full: 31 octets wanted, 30 free; stored 1:; taken; \
         1 in 40, 1 wait",
    ),
    (
        64,
        "frame-1 frame-2 seal-2",
        "taken; taken; full: 10 octets wanted, 0 free; 0 in 9, 2 wait",
    ),
    (
        63,
        "frame-1 frame-2 seal-2",
        "taken; full: 24 octets wanted, 23 free; taken; 0 in 9, 2 wait",
    ),
    // Times of frames and seals are in order.
    (
        CAPACITY,
        "frame-2 frame-1 seal-3 seal-2 frame-3 store frame-3 seal-3 frame-4",
        "taken; backward; taken; backward; backward; stored 2: 2; backward; taken; taken; \
         2 in 50, 2 wait",
    ),
    // Nothing waits, and a store is stale all the same.
    (
        CAPACITY,
        "fail-1 reopen store frame-1 store reopen store",
        "disk fault; stale; taken; stale; landed: lost: 1; stored 0:; 0 in 9, 0 wait",
    ),
    // A batch lands where its gate was opened, which is before the fourth call of its store. What
    // was offered after that store is lost, and what was lost is offered again.
    (
        CAPACITY,
        "fail-3 frame-1 store frame-2 store reopen restart",
        "taken; disk fault; taken; stale; landed: lost: 1 2; found:; 0 in 9, 0 wait",
    ),
    (
        CAPACITY,
        "fail-4 frame-1 store frame-2 store reopen restart",
        "taken; disk fault; taken; stale; landed: 1 lost: 2; found: 1; 1 in 40, 0 wait",
    ),
    (
        CAPACITY,
        "frame-1 store fail-1 frame-2 store reopen frame-2 frame-3 store restart",
        "taken; stored 1: 1; taken; disk fault; landed: lost: 2; taken; taken; stored 3: 2 3; \
         found: 1 2 3; 3 in 95, 0 wait",
    ),
    (
        CAPACITY,
        "frame-1 store fail-4 frame-2 store reopen store frame-3 store restart",
        "taken; stored 1: 1; taken; disk fault; landed: 2 lost:; stored 2:; taken; \
         stored 3: 3; found: 1 2 3; 3 in 102, 0 wait",
    ),
    // A stop leaves a batch whole, where it comes at the gate and what is pending takes effect, or
    // not at all.
    (
        CAPACITY,
        "frame-1 store keep-3 frame-2 store reopen restart frame-3 store restart",
        "taken; stored 1: 1; taken; disk fault; disk fault; found: 1 2; taken; \
         stored 3: 3; found: 1 2 3; 3 in 102, 0 wait",
    ),
    (
        CAPACITY,
        "frame-1 store lose-3 frame-2 store reopen restart frame-3 store restart",
        "taken; stored 1: 1; taken; disk fault; disk fault; found: 1; taken; \
         stored 2: 3; found: 1 3; 2 in 71, 0 wait",
    ),
    (
        CAPACITY,
        "frame-1 store keep-2 frame-2 store reopen restart",
        "taken; stored 1: 1; taken; disk fault; disk fault; found: 1; 1 in 40, 0 wait",
    ),
    // A sync fails in the store, and then the reopen's.
    (
        CAPACITY,
        "frame-1 store fail-2 frame-2 store store fail-1 reopen store reopen store restart",
        "taken; stored 1: 1; taken; disk fault; stale; disk fault; stale; landed: lost: 2; \
         stored 1:; found: 1; 1 in 40, 0 wait",
    ),
    (
        CAPACITY,
        "frame-1 store fail-4 frame-2 store store fail-1 reopen store reopen store restart",
        "taken; stored 1: 1; taken; disk fault; stale; disk fault; stale; landed: 2 lost:; \
         stored 2:; found: 1 2; 2 in 71, 0 wait",
    ),
];

#[test]
fn scripts_answer_so(rt: HostRuntime) -> Result<(), Fail> {
    for (capacity, steps, text) in SCRIPTS {
        assert_eq!(rt; play(rt.alloc(), capacity, steps)?.as_str(), text);
    }
    Ok(())
}

// Why the archive of a file isn't opened.
fn refusal(alloc: Global, file: &[u8]) -> Result<Option<ArchiveFault>, AllocError> {
    match open_archive(alloc, MemoryDisk::holding(alloc, file)?, CAPACITY) {
        Ok(_) => Ok(None),
        Err((fault, _)) => Ok(Some(fault)),
    }
}

#[test]
fn a_file_is_refused_at_its_first_fault(rt: HostRuntime) -> Result<(), Fail> {
    let table: [(&[u8], ArchiveFault); 4] = [
        (b"SLEX\0\0\0\x01\0", ArchiveFault::NotJournal { place: 3 }),
        (b"SLEA\0\0\0", ArchiveFault::NotJournal { place: 7 }),
        (b"SLEA\0\0\0\x01", ArchiveFault::Damaged { place: 8 }),
        (b"SLEA\0\0\0\x01\xa5", ArchiveFault::Damaged { place: 9 }),
    ];
    for (file, fault) in table {
        assert_eq!(rt; refusal(rt.alloc(), file)?, Some(fault));
    }
    Ok(())
}

// What no script above says.
#[test]
fn faults_say_what_they_are(rt: HostRuntime) -> Result<(), Fail> {
    let place = 2;
    let (expected, found) = (3, 2);
    let table = [
        (
            ArchiveFault::NotJournal { place },
            "no journal: octet 2 isn't the header's",
        ),
        (ArchiveFault::Damaged { place }, "damaged at octet 2"),
        (
            ArchiveFault::Changed { expected, found },
            "changed: 3 entries expected, 2 found",
        ),
        (ArchiveFault::Memory, "out of memory"),
    ];
    for (fault, text) in table {
        assert_eq!(rt; format!(in rt.alloc(); "{fault}")?.as_str(), text);
    }
    Ok(())
}

#[test]
fn refusals_say_what_they_are(rt: HostRuntime) -> Result<(), Fail> {
    let table = [
        (OfferFault::TooLong, "too long"),
        (OfferFault::Waiting, "256 entries wait"),
        (OfferFault::Memory, "out of memory"),
    ];
    for (fault, text) in table {
        assert_eq!(rt; format!(in rt.alloc(); "{fault}")?.as_str(), text);
    }
    Ok(())
}
