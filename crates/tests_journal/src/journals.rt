// Journals on disks in memory, and what is recovered from them and appended.
ghost use Rattle.std.specs.Prelude.{Some};
ghost use Rattle.disk_model.specs.MemoryDisk.{pending_of};
ghost use Rattle.gate_journal.specs.JournalState.{Keeps};

use cds_time::{Cds, Rest};
use disk_model::MemoryDisk;
use gate_journal::{Journal, JournalFault, follows, laws};
use octet_core::{Memory, Octets};
use record_form::{Entries, Entry};
use sle_numbers::FrameQuality;
use std::alloc::{AllocError, Global};

// More than any of the files wants.
const CAPACITY: u64 = 268_435_456;

/// A file of the first frame.
pub const FILE: &[u8] =
    b"SLEA\x00\x00\x00\x01\xa5\x00\x00\x00\x18\x00\x01\x01\x00\x4e\x20\x00\x00\x03\xe8\x00\x00\
    \x00\x01A\x00\x00\x00\x00\x00\x00\x00\x03\x00\x10\xa1\x00";

/// A batch of one frame of three octets from the antenna A, at 20000 days and so many seconds.
pub fn batch_of(alloc: Global, number: u8) -> Result<Entries, Memory> {
    let mut batch = Entries::new(alloc);
    batch.push(Entry::Frame {
        ert: Cds {
            days: 20_000,
            millis: u32::from(number) * 1_000,
            rest: Rest::Micros(0),
        },
        quality: FrameQuality::Good,
        antenna: Octets::copy_of(alloc, b"A")?,
        lost: 0,
        octets: Octets::copy_of(alloc, &[0, 0x10, number.wrapping_add(0xa0)])?,
    })?;
    Ok(batch)
}

/// Appends a batch to what is stored, where it may follow.
pub fn append(
    journal: &mut Journal<MemoryDisk>,
    before: &Entries,
    batch: &Entries,
) -> Result<(), JournalFault>
    requires { Keeps (Some (pending_of journal.old.disk)) before.now }
{
    laws::a_batch_may_follow();
    if batch.len() < 1 || batch.len() > 256 || !follows(before, batch) {
        return Err(JournalFault::Memory);
    }
    journal.append(batch, CAPACITY)
}

/// How many octets of a file are used, and its entries: a frame by its seconds, others by a dash.
pub fn told(alloc: Global, size: u64, entries: &Entries) -> Result<String, AllocError> {
    let mut text = format!(in alloc; "{size}:")?;
    for entry in entries.as_slice() {
        text.push_str(told_entry(alloc, entry)?.as_str())?;
    }
    Ok(text)
}

fn told_entry(alloc: Global, entry: &Entry) -> Result<String, AllocError> {
    match entry {
        Entry::Frame { ert, .. } => format!(in alloc; " {}", ert.millis / 1_000),
        _ => format!(in alloc; " -"),
    }
}
