// The lines that offer entries, written a block at a time.
ghost use Rattle.std.specs.Prelude.{◌≡◌, ◌≤◌, ◌<◌, ◌^◌, ◌++◌, [], drop, length};
ghost use Rattle.std.specs.Prelude.{IsTrue, OnOk, OnErr, IfOk, IfSome};
ghost use Rattle.std.specs.List.{list_all};
ghost use Rattle.octet_core.specs.Fault.{Rose};
ghost use Rattle.archive_terms.specs.Archive.{is_storable};
ghost use Rattle.record_form.specs.Entry.{entries_of};
ghost use Rattle.record_form.specs.Lent.{lent_entry};
ghost use Rattle.drill_text.specs.Reading.{entry_text};
ghost use Rattle.disk_model.specs.Calls.{OnlyCalls};
ghost use Rattle.gate_journal.specs.JournalState.{OnlyReads};
ghost use Rattle.gate_journal.specs.Batches.{StandsForSome};
ghost use Rattle.script_store.specs.Output.{Wrote};
ghost use Rattle.script_store.specs.Steps.{Behind};
ghost use Rattle.archive_commands.specs.declared.ending.Ending.TheVariants as Ending;
ghost use Rattle.archive_commands.specs.Archives.{entries_text, offered, Empties, Gathers, Puts};
ghost use Rattle.archive_commands.specs.Archives.{ending_of};

use crate::ending::Ending;
use crate::entry_line::append_entry_line;
use command_ends::put_line;
use disk_model::Disk;
use gate_journal::{Batch, BatchFault, Batches};
use octet_core::Sink;
use record_form::{Entry, EntryRef};
use script_store::Stop;
use std::alloc::Global;

// How many octets are put together before they are written: whole pages of the system, and so many
// that its calls cost little.
const BLOCK: usize = 131_072;

/// Writes the lines that offer the entries of a file, batch by batch as they are read. It takes
/// memory for a block and one line, and for what is read at once.
pub fn put_file<D: Disk, O: Sink>(
    alloc: Global,
    disk: &mut D,
    output: &mut O,
) -> Result<Ending, Stop>
    requires { IfSome (D.pending disk.old) (λ _. StandsForSome (D.pending disk.old)) }
    ensures puts { Puts (D.pending disk.old) (O.written output.old) (O.written output.new)
        (O.faults output.old) (O.faults output.new) result }
    ensures reads { OnlyReads D.pending D.moment D.images_since disk.old disk.new }
    ensures calls { OnlyCalls D.makes D.fails D.fails_to_read disk.old disk.new }
    ensures cause { IfOk result (λ ending. ending ≡ Ending.DiskFault → Rose (D.faults disk.old)
        (D.faults disk.new)) }
{
    let mut block = Vec::new(alloc);
    let ending = put_batches(alloc, disk, &mut block, output)?;
    put_block(&mut block, output)?;
    Ok(ending)
}

// Puts the lines of the batches of a file together in a block, and writes it where it is full.
fn put_batches<D: Disk, O: Sink>(
    alloc: Global,
    disk: &mut D,
    block: &mut Vec<u8>,
    output: &mut O,
) -> Result<Ending, Stop>
    requires whole { IfSome (D.pending disk.old) (λ _. StandsForSome (D.pending disk.old)) }
    requires empty { block.old.items ≡ [] }
    ensures gathers { Gathers (D.pending disk.old) (O.written output.old) (O.written output.new)
        (O.faults output.old) (O.faults output.new) block.new.items result }
    ensures reads { OnlyReads D.pending D.moment D.images_since disk.old disk.new }
    ensures calls { OnlyCalls D.makes D.fails D.fails_to_read disk.old disk.new }
    ensures cause { IfOk result (λ ending. ending ≡ Ending.DiskFault → Rose (D.faults disk.old)
        (D.faults disk.new)) }
{
    disk_model::laws::only_calls_join::<D>();
    gate_journal::laws::what_is_read_is_a_front();
    gate_journal::laws::a_batch_may_follow();
    let mut batches = match Batches::open(alloc, disk) {
        Ok(batches) => batches,
        Err(fault) => return end_of_reading(fault, 0),
    };
    loop {
        match batches.next(disk) {
            Ok(true) => put_batch(alloc, batches.batch(), block, output)?,
            Ok(false) => return Ok(Ending::Whole),
            Err(fault) => return end_of_reading(fault, batches.gate()),
        }
    }
}

// How a reading ended at the gate at a place.
fn end_of_reading(fault: BatchFault, place: u64) -> Result<Ending, Stop>
    ensures { result ≡ ending_of fault place }
{
    match fault {
        BatchFault::Unfit => Ok(Ending::Changed { place }),
        BatchFault::DiskFault => Ok(Ending::DiskFault),
        BatchFault::Memory => Err(Stop::Memory),
    }
}

/// Writes the lines that offer entries. It takes memory for a block and one line, however many
/// entries there are.
pub fn put_all<O: Sink>(alloc: Global, entries: &[Entry], output: &mut O) -> Result<(), Stop>
    requires { IsTrue (list_all is_storable (entries_of entries.now)) }
    ensures { Wrote (O.written output.old) (O.written output.new)
        (O.faults output.old) (O.faults output.new)
        (entries_text (entries_of entries.now)) result }
{
    let mut block = Vec::new(alloc);
    put_entries(alloc, entries, &mut block, output)?;
    put_block(&mut block, output)
}

// Puts the lines that offer entries behind those of a block, and writes it where it is full.
fn put_entries<O: Sink>(
    alloc: Global,
    entries: &[Entry],
    block: &mut Vec<u8>,
    output: &mut O,
) -> Result<(), Stop>
    requires { IsTrue (list_all is_storable (entries_of entries.now)) }
    ensures held { OnOk result (Behind (O.written output.old) (O.written output.new)
        (O.faults output.old) (O.faults output.new)
        (block.old.items ++ entries_text (entries_of entries.now)) block.new.items) }
    ensures stopped { OnErr result (Wrote (O.written output.old) (O.written output.new)
        (O.faults output.old) (O.faults output.new)
        (block.old.items ++ entries_text (entries_of entries.now)) result) }
{
    for entry in entries {
        put_entry(alloc, entry.lend(), block, output)?;
    }
    Ok(())
}

// The same of the entries of a batch.
fn put_batch<O: Sink>(
    alloc: Global,
    batch: Batch<'_>,
    block: &mut Vec<u8>,
    output: &mut O,
) -> Result<(), Stop>
    requires { IsTrue (list_all is_storable batch) }
    ensures held { OnOk result (Behind (O.written output.old) (O.written output.new)
        (O.faults output.old) (O.faults output.new)
        (block.old.items ++ entries_text batch.entry) block.new.items) }
    ensures stopped { OnErr result (Wrote (O.written output.old) (O.written output.new)
        (O.faults output.old) (O.faults output.new)
        (block.old.items ++ entries_text batch.entry) result) }
{
    let mut batch = batch;
    while let Some(entry) = batch.next() {
        put_entry(alloc, entry, block, output)?;
    }
    Ok(())
}

// Puts the line that offers an entry behind those of a block, and writes it where it is full.
fn put_entry<O: Sink>(
    alloc: Global,
    entry: EntryRef<'_>,
    block: &mut Vec<u8>,
    output: &mut O,
) -> Result<(), Stop>
    requires { IsTrue (is_storable (lent_entry entry)) }
    ensures held { OnOk result (Behind (O.written output.old) (O.written output.new)
        (O.faults output.old) (O.faults output.new)
        (block.old.items ++ entry_text (offered (lent_entry entry.entry))) block.new.items) }
    ensures stopped { OnErr result (Wrote (O.written output.old) (O.written output.new)
        (O.faults output.old) (O.faults output.new)
        (block.old.items ++ entry_text (offered (lent_entry entry.entry))) result) }
    ensures rest { OnOk result (length block.new.items < 2 ^ 17) }
{
    append_entry_line(alloc, entry, block)?;
    put_full(block, output)
}

// Writes what a block holds in whole lengths of a full one, and keeps what stands behind them.
fn put_full<O: Sink>(block: &mut Vec<u8>, output: &mut O) -> Result<(), Stop>
    ensures written { Empties (O.written output.old) (O.written output.new)
        (O.faults output.old) (O.faults output.new)
        block.old.items block.new.items result }
    ensures rest { length block.new.items < 2 ^ 17 }
{
    let full = block.len() - block.len() % BLOCK;
    if full == 0 {
        return Ok(());
    }
    let written = put_line(&block[..full], output);
    cut_front(block, full);
    written
}

// Takes so many octets off the front of a block.
fn cut_front(block: &mut Vec<u8>, count: usize)
    requires { count ≤ length block.old.items }
    ensures { block.new.items ≡ drop count block.old.items }
{
    let left = block.len() - count;
    block.copy_within(count.., 0);
    block.truncate(left);
}

// Writes all that a block holds, and empties it.
fn put_block<O: Sink>(block: &mut Vec<u8>, output: &mut O) -> Result<(), Stop>
    ensures written { Empties (O.written output.old) (O.written output.new)
        (O.faults output.old) (O.faults output.new)
        block.old.items block.new.items result }
    ensures whole { block.new.items ≡ [] }
{
    if block.is_empty() {
        return Ok(());
    }
    let written = put_line(block.as_slice(), output);
    block.clear();
    written
}
