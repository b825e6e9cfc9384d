// Entries are stored one after the other, and each count that is acknowledged is told.
ghost use Rattle.std.specs.Prelude.{◌≡◌, ◌≤◌, ◌+◌, ◌++◌, ◌∷◌, [], List, max, IsTrue, OnOk, OnErr};
ghost use Rattle.std.specs.Prelude.{IfOk, IfErr};
ghost use Rattle.octet_core.specs.Written.{Writes};
ghost use Rattle.archive_terms.specs.Archive.{is_valid};
ghost use Rattle.archive_terms.specs.Archive as terms;
ghost use Rattle.record_form.specs.Entry.{entry_of};
ghost use Rattle.frame_archive.specs.State.{with_waiting};
ghost use Rattle.frame_archive.specs.Acknowledges.{Acknowledges};
ghost use Rattle.kill_store.specs.Numbered.{numbered_between, count_line, counts};
ghost use Rattle.kill_store.specs.Storing.{Rests};
ghost use Rattle.kill_store.specs.declared.halt.Halt.TheVariants as Halt;

use crate::halt::Halt;
use crate::numbered::numbered;
use disk_model::Disk;
use frame_archive::{FrameArchive, open_archive};
use gate_journal::Journal;
use octet_core::Sink;
use record_form::Entry;
use std::alloc::Global;

/// How many octets the file may have.
const CAPACITY: u64 = 268_435_456;

/// Opens the archive on a disk, which is made where the disk is empty.
pub fn open<D: Disk>(alloc: Global, disk: D) -> Result<FrameArchive<D>, Halt>
    ensures { IfOk result (λ archive. Rests archive) }
{
    let disk = made(alloc, disk)?;
    match open_archive(alloc, disk, CAPACITY) {
        Ok((archive, _)) => Ok(archive),
        Err((fault, _)) => Err(Halt::Archive(fault)),
    }
}

// Makes an archive of no entries where the disk is empty.
fn made<D: Disk>(alloc: Global, disk: D) -> Result<D, Halt> {
    if disk.size() > 0 {
        return Ok(disk);
    }
    match Journal::create(alloc, disk) {
        Ok(journal) => Ok(journal.into_disk()),
        Err((fault, _)) => Err(Halt::Unmade(fault)),
    }
}

/// Stores the entries of the next numbers, until the archive has acknowledged so many, and tells
/// the count after each.
pub fn store_up_to<D: Disk, O: Sink>(
    alloc: Global,
    archive: &mut FrameArchive<D>,
    most: u32,
    output: &mut O,
) -> Result<(), Halt>
    requires { Rests archive.old }
    ensures told { Writes Halt.WriteFault (O.written output.old) (O.written output.new)
        (O.faults output.old) (O.faults output.new)
        (counts archive.old.count archive.new.count) result }
    ensures all { OnOk result (archive.new.count ≡ max archive.old.count most) }
    ensures acknowledged { (entries : List terms.Entry) → Acknowledges D.pending archive.old entries
        → Acknowledges D.pending archive.new
        (entries ++ numbered_between archive.old.count archive.new.count) }
{
    for number in archive.count()..u64::from(most) {
        store_one(alloc, archive, number, output)?;
    }
    Ok(())
}

// Stores the entry of the number that the archive has come to, and tells the count.
fn store_one<D: Disk, O: Sink>(
    alloc: Global,
    archive: &mut FrameArchive<D>,
    number: u64,
    output: &mut O,
) -> Result<(), Halt>
    requires rests { Rests archive.old }
    requires next { archive.old.count ≡ number }
    ensures told { Writes Halt.WriteFault (O.written output.old) (O.written output.new)
        (O.faults output.old) (O.faults output.new)
        (counts number archive.new.count) result }
    ensures grows { number ≤ archive.new.count }
    ensures one { OnOk result (archive.new.count ≡ number + 1) }
    ensures rests { OnOk result (Rests archive.new) }
    ensures acknowledged { (entries : List terms.Entry) → Acknowledges D.pending archive.old entries
        → Acknowledges D.pending archive.new
        (entries ++ numbered_between number archive.new.count) }
{
    let entry = numbered(alloc, number)?;
    let count = keep(archive, entry)?;
    put_count(alloc, count, output)
}

// Stores an entry, and answers how many are acknowledged with it.
fn keep<D: Disk>(archive: &mut FrameArchive<D>, entry: Entry) -> Result<u64, Halt>
    requires rests { Rests archive.old }
    requires valid { IsTrue (is_valid (entry_of entry)) }
    ensures one { IfOk result (λ count. count ≡ archive.old.count + 1) }
    ensures count { IfOk result (λ count. archive.new.count ≡ count) }
    ensures rests { OnOk result (Rests archive.new) }
    ensures acknowledged { OnOk result ((entries : List terms.Entry)
        → Acknowledges D.pending archive.old entries
        → Acknowledges D.pending archive.new (entries ++ entry_of entry ∷ [])) }
    ensures still { OnErr result ((entries : List terms.Entry)
        → Acknowledges D.pending archive.old entries
        → Acknowledges D.pending archive.new entries) }
    ensures none { OnErr result (archive.new.count ≡ archive.old.count) }
    ensures cause { IfErr result (λ halt. ¬ (halt ≡ Halt.WriteFault)) }
{
    offer(archive, entry)?;
    match archive.store() {
        Ok(stored) => Ok(stored.count),
        Err(fault) => Err(Halt::Archive(fault)),
    }
}

// Puts an entry behind those that wait.
fn offer<D: Disk>(archive: &mut FrameArchive<D>, entry: Entry) -> Result<(), Halt>
    requires { IsTrue (is_valid (entry_of entry)) }
    ensures taken { OnOk result (archive.new ≡ with_waiting archive.old (entry_of entry)) }
    ensures acknowledged { OnOk result ((entries : List terms.Entry)
        → Acknowledges D.pending archive.old entries
        → Acknowledges D.pending archive.new entries) }
    ensures refused { OnErr result (archive.new ≡ archive.old) }
    ensures cause { IfErr result (λ halt. ¬ (halt ≡ Halt.WriteFault)) }
{
    match archive.offer(entry) {
        Ok(()) => Ok(()),
        Err((fault, _)) => Err(Halt::Refused(fault)),
    }
}

// Writes a count as a line.
fn put_count<O: Sink>(alloc: Global, count: u64, output: &mut O) -> Result<(), Halt>
    ensures { Writes Halt.WriteFault (O.written output.old) (O.written output.new)
        (O.faults output.old) (O.faults output.new)
        (count_line count) result }
{
    let line = format!(in alloc; "{count}\n")?;
    match output.put_all(line.as_bytes()) {
        Ok(()) => Ok(()),
        Err(_) => Err(Halt::WriteFault),
    }
}
