// `init` and `list`: an archive file is made, or its entries are written.
ghost use Rattle.std.specs.Prelude.{◌≡◌, ◌⊎◌, OnOk, IfSome, IsErrOf, IsTrue};
ghost use Rattle.octet_core.specs.Fault.{Rose};
ghost use Rattle.std.specs.List.{list_all};
ghost use Rattle.archive_terms.specs.Archive.{is_storable};
ghost use Rattle.disk_model.specs.Images.{all_synced};
ghost use Rattle.disk_model.specs.Calls.{OnlyCalls};
ghost use Rattle.gate_journal.specs.JournalState.{OnlyReads};
ghost use Rattle.gate_journal.specs.Batches.{StandsForSome};
ghost use Rattle.gate_journal.specs.declared.batch_fault.BatchFault.TheVariants as BatchFault;
ghost use Rattle.script_store.specs.Output.{Wrote};
ghost use Rattle.command_ends.specs.Ends.{Closes, closed, code};
ghost use Rattle.archive_commands.specs.Archives.{IsInit, IsList, IsOfReading, listed_by};
ghost use Rattle.archive_commands.specs.Archives.{entries_text, listed_status, listed_text};
ghost use Rattle.archive_commands.specs.Archives.{refused_line};

use crate::ending::Ending;
use crate::listing::{put_all, put_file};
use command_ends::{Status, put_line};
use disk_model::Disk;
use gate_journal::{BatchFault, Batches, Journal, JournalFault};
use octet_core::Sink;
use record_form::Entries;
use script_store::Stop;
use std::alloc::Global;

const DISK_FAULT: &[u8] = b"disk fault\n";

/// Makes a new archive file on an empty disk, and says so. Answers the exit code, and hands the
/// disk back.
pub fn init_archive<D: Disk, O: Sink>(alloc: Global, disk: D, output: &mut O) -> (u8, D)
    ensures init { IsInit D.pending D.extent D.moment D.images_since D.faults disk result.1
        (O.written output.old) (O.written output.new)
        (O.faults output.old) (O.faults output.new)
        result.0 }
    ensures calls { OnlyCalls D.makes D.fails D.fails_to_read disk result.1 }
{
    disk_model::laws::only_calls_join::<D>();
    if disk.size() > 0 {
        let exit = tell(b"archive refused 0\n", Status::ArchiveRefused, output);
        return (exit, disk);
    }
    match Journal::create(alloc, disk) {
        Ok(journal) => {
            let exit = tell(b"made\n", Status::Done, output);
            (exit, journal.into_disk())
        }
        Err((_, disk)) => {
            let exit = tell(DISK_FAULT, Status::DiskFault, output);
            (exit, disk)
        }
    }
}

/// Writes each entry of the archive file on a disk as the line that offers it. Answers the exit
/// code, and hands the disk back.
///
/// The file is gone over twice, batch by batch: all of it is checked before a line is written, and
/// then it is read again.
pub fn list_archive<D: Disk, O: Sink>(alloc: Global, mut disk: D, output: &mut O) -> (u8, D)
    ensures list { IsList D.pending D.moment D.images_since D.faults disk result.1
        (O.written output.old) (O.written output.new)
        (O.faults output.old) (O.faults output.new)
        result.0 }
    ensures calls { OnlyCalls D.makes D.fails D.fails_to_read disk result.1 }
{
    disk_model::laws::only_calls_join::<D>();
    disk_model::laws::images_at_a_moment::<D>();
    disk_model::laws::a_sync_leaves_one_image();
    match disk.sync() {
        Ok(()) => list_synced(alloc, disk, output),
        Err(_) => (tell(DISK_FAULT, Status::DiskFault, output), disk),
    }
}

// The same of a disk that is synced.
fn list_synced<D: Disk, O: Sink>(alloc: Global, mut disk: D, output: &mut O) -> (u8, D)
    requires { IfSome (D.pending disk) (λ told. told ≡ all_synced told.content) }
    ensures list { IsList D.pending D.moment D.images_since D.faults disk result.1
        (O.written output.old) (O.written output.new)
        (O.faults output.old) (O.faults output.new)
        result.0 }
    ensures calls { OnlyCalls D.makes D.fails D.fails_to_read disk result.1 }
{
    disk_model::laws::only_calls_join::<D>();
    disk_model::laws::images_at_a_moment::<D>();
    match check(alloc, &mut disk) {
        Ok(()) => {
            let exit = list_batches(alloc, &mut disk, output);
            (exit, disk)
        }
        Err(BatchFault::Unfit) => list_recovered(alloc, disk, output),
        Err(BatchFault::DiskFault) => (tell(DISK_FAULT, Status::DiskFault, output), disk),
        Err(BatchFault::Memory) => (Status::Memory.code(), disk),
    }
}

// Goes over all of a file, to see whether it stands for entries.
fn check<D: Disk>(alloc: Global, disk: &mut D) -> Result<(), BatchFault>
    ensures whole { OnOk result (IfSome (D.pending disk.old) (λ _. StandsForSome
        (D.pending disk.old))) }
    ensures unfit { IsErrOf result BatchFault.Unfit → ¬ StandsForSome (D.pending disk.old) }
    ensures same { IsErrOf result BatchFault.DiskFault ⊎ (disk.new ≡ disk.old) }
    ensures failed { IsErrOf result BatchFault.DiskFault → D.fails_to_read disk.old disk.new }
    ensures reads { OnlyReads D.pending D.moment D.images_since disk.old disk.new }
    ensures cause { IsErrOf result BatchFault.DiskFault → Rose (D.faults disk.old)
        (D.faults disk.new) }
{
    let mut batches = Batches::open(alloc, disk)?;
    while batches.next(disk)? {}
    Ok(())
}

// Writes the lines of a file that stands for entries, and answers the exit code.
fn list_batches<D: Disk, O: Sink>(alloc: Global, disk: &mut D, output: &mut O) -> u8
    requires synced { IfSome (D.pending disk.old) (λ told. told ≡ all_synced told.content) }
    requires whole { IfSome (D.pending disk.old) (λ _. StandsForSome (D.pending disk.old)) }
    ensures list { IsList D.pending D.moment D.images_since D.faults disk.old disk.new
        (O.written output.old) (O.written output.new)
        (O.faults output.old) (O.faults output.new)
        result }
    ensures calls { OnlyCalls D.makes D.fails D.fails_to_read disk.old disk.new }
{
    gate_journal::laws::a_file_stands_for_one_list();
    disk_model::laws::images_at_a_moment::<D>();
    match put_file(alloc, disk, output) {
        Ok(Ending::Whole) => Status::Done.code(),
        Ok(Ending::Changed { place }) => {
            close(put_refused(alloc, place, output), Status::ArchiveRefused)
        }
        Ok(Ending::DiskFault) => tell(DISK_FAULT, Status::DiskFault, output),
        Err(stop) => close(Err(stop), Status::Memory),
    }
}

// Reads a file whole, which says where it isn't of its form, or lists it where it is after all.
fn list_recovered<D: Disk, O: Sink>(alloc: Global, disk: D, output: &mut O) -> (u8, D)
    ensures list { IsList D.pending D.moment D.images_since D.faults disk result.1
        (O.written output.old) (O.written output.new)
        (O.faults output.old) (O.faults output.new)
        result.0 }
    ensures calls { OnlyCalls D.makes D.fails D.fails_to_read disk result.1 }
{
    disk_model::laws::only_calls_join::<D>();
    gate_journal::laws::a_file_stands_for_one_list();
    match Journal::recover(alloc, disk) {
        Ok((journal, entries)) => {
            let exit = list_entries(alloc, &entries, output);
            (exit, journal.into_disk())
        }
        Err((fault, disk)) => (tell_fault(alloc, fault, output), disk),
    }
}

// Says at which place the octets of a file aren't an archive's.
fn put_refused<O: Sink>(alloc: Global, place: u64, output: &mut O) -> Result<(), Stop>
    ensures { Wrote (O.written output.old) (O.written output.new)
        (O.faults output.old) (O.faults output.new)
        (refused_line place) result }
{
    let line = format!(in alloc; "archive refused {place}\n")?;
    put_line(line.as_bytes(), output)
}

// Writes a line as a command's whole text, and answers the exit code.
fn tell<O: Sink>(line: &[u8], own: Status, output: &mut O) -> u8
    ensures { Closes (O.written output.old) (O.written output.new)
        (O.faults output.old) (O.faults output.new)
        line.now own result }
{
    close(put_line(line, output), own)
}

// The exit code of a command that has a status of its own, where its text was written.
fn close(outcome: Result<(), Stop>, own: Status) -> u8
    ensures { result ≡ code (closed outcome own) }
{
    let status = match outcome {
        Ok(()) => own,
        Err(Stop::WriteFault) => Status::WriteFault,
        Err(Stop::Memory) => Status::Memory,
    };
    status.code()
}

// Says why a file's entries can't be listed, and answers the exit code.
fn tell_fault<O: Sink>(alloc: Global, fault: JournalFault, output: &mut O) -> u8
    requires { IsOfReading fault }
    ensures { Closes (O.written output.old) (O.written output.new)
        (O.faults output.old) (O.faults output.new)
        (listed_text (listed_by fault)) (listed_status (listed_by fault)) result }
{
    match fault {
        JournalFault::NotJournal { place } => {
            close(put_refused(alloc, place, output), Status::ArchiveRefused)
        }
        JournalFault::Damaged { place } => {
            close(put_refused(alloc, place, output), Status::ArchiveRefused)
        }
        JournalFault::DiskFault => tell(DISK_FAULT, Status::DiskFault, output),
        JournalFault::Memory => Status::Memory.code(),
        JournalFault::Full { .. } | JournalFault::Stale => unreachable!(),
    }
}

// Writes the lines that offer entries as a command's whole text, and answers the exit code.
fn list_entries<O: Sink>(alloc: Global, entries: &Entries, output: &mut O) -> u8
    requires { IsTrue (list_all is_storable entries.now) }
    ensures { Closes (O.written output.old) (O.written output.new)
        (O.faults output.old) (O.faults output.new)
        (entries_text entries.now) Status.Done result }
{
    close(put_all(alloc, entries.as_slice(), output), Status::Done)
}
