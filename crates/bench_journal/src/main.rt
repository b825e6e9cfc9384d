// Appends batches of frames to a journal in a file, or recovers it, so that each can be timed.
//
// The words are `append FILE ENTRIES BATCHES`, for a file that isn't there or is empty, or `recover
// FILE`. With no words a file of the present folder gets three batches of one entry and two of 256,
// is recovered, and is removed.
#![tactic(auto)]

ghost use Rattle.std.specs.Prelude.{◌≤◌, IsTrue, length};
ghost use Rattle.std.specs.List.{list_all};
ghost use Rattle.archive_terms.specs.Archive.{is_storable};

use cds_time::{Cds, Rest};
use disk_model::FileDisk;
use gate_journal::{Journal, JournalFault, follows, laws};
use octet_core::{Memory, Octets};
use record_form::{Entries, Entry};
use sle_numbers::FrameQuality;
use std::alloc::{AllocError, Global};
use std::{env, fs, io};

/// The most octets that a file may have.
const CAPACITY: u64 = 268_435_456;

/// A frame's octets: with its other fields an entry has 1,136.
const FRAME: [u8; 1_115] = [0x5a; 1_115];

/// The file of the round with no words.
const PATH: &str = "bench_journal_file";

/// A batch of frames, all at 20000 days and one second, from the antenna A.
fn batch(alloc: Global, entries: u32) -> Result<Entries, Memory> {
    let mut batch = Entries::new(alloc);
    for _ in 0..entries {
        batch.push(Entry::Frame {
            ert: Cds {
                days: 20_000,
                millis: 1_000,
                rest: Rest::Micros(0),
            },
            quality: FrameQuality::Good,
            antenna: Octets::copy_of(alloc, b"A")?,
            lost: 0,
            octets: Octets::copy_of(alloc, &FRAME)?,
        })?;
    }
    Ok(batch)
}

/// Appends a batch as often.
fn append_often(
    journal: &mut Journal<FileDisk>,
    batch: &Entries,
    batches: u32,
) -> Result<(), JournalFault>
    requires some { 1 ≤ length batch.now }
    requires most { length batch.now ≤ 256 }
    requires storable { IsTrue (list_all is_storable batch.now) }
{
    for _ in 0..batches {
        journal.append(batch, CAPACITY)?;
    }
    Ok(())
}

/// Appends batches of as many entries to a journal, and tells how many octets it uses then. It is
/// an error where a journal holds no such batch.
fn append(
    rt: &HostRuntime,
    journal: &mut Journal<FileDisk>,
    entries: u32,
    batches: u32,
) -> io::Result<()> {
    laws::a_batch_may_follow();
    let batch = batch(rt.alloc(), entries).map_err(AllocError::from)?;
    let none = Entries::new(rt.alloc());
    if batch.len() < 1 || batch.len() > 256 || !follows(&none, &batch) {
        return Err(io::ErrorKind::InvalidInput.into());
    }
    match append_often(journal, &batch, batches) {
        Ok(()) => {
            let used = journal.used();
            println!(rt; "{batches} batches of {entries} appended, {used} octets used")
        }
        Err(fault) => println!(rt; "{fault}"),
    }
}

/// A new journal over a file that isn't there or is empty.
fn create(rt: &HostRuntime, path: &str) -> io::Result<Journal<FileDisk>> {
    let disk = FileDisk::create(rt, path)?;
    Journal::create(rt.alloc(), disk).map_err(|_| io::ErrorKind::AlreadyExists.into())
}

/// Recovers the journal of a file, and tells how many entries it holds.
fn recover(rt: &HostRuntime, path: &str) -> io::Result<()> {
    let disk = FileDisk::open(rt, path)?;
    match Journal::recover(rt.alloc(), disk) {
        Ok((journal, entries)) => {
            let (count, used) = (entries.len(), journal.used());
            println!(rt; "{count} entries recovered, {used} octets used")
        }
        Err((fault, _)) => println!(rt; "{fault}"),
    }
}

/// The round with no words.
fn round(rt: &HostRuntime) -> io::Result<()> {
    let mut journal = create(rt, PATH)?;
    append(rt, &mut journal, 1, 3)?;
    append(rt, &mut journal, 256, 2)?;
    drop(journal);
    recover(rt, PATH)?;
    fs::remove_file(rt, PATH)
}

/// The number that a word is, or 1.
fn number(word: Option<String>) -> u32 {
    word.and_then(|word| word.parse::<u32>().ok()).unwrap_or(1)
}

fn main(rt: HostRuntime) -> io::Result<()> {
    let mut words = env::args(&rt)?.skip(1);
    let Some(work) = words.next() else {
        return round(&rt);
    };
    let Some(path) = words.next() else {
        return Err(io::ErrorKind::InvalidInput.into());
    };
    if work.as_str() == "recover" {
        return recover(&rt, path.as_str());
    }
    let entries = number(words.next());
    let batches = number(words.next());
    let mut journal = create(&rt, path.as_str())?;
    append(&rt, &mut journal, entries, batches)
}
