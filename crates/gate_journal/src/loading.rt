// A journal's entries from the octets of its file.
ghost use Rattle.std.specs.Prelude.{◌≡◌, ◌<◌, ◌++◌, ℕ, drop, length};
ghost use Rattle.std.specs.Prelude.{IfOk, IfErr, IfSome, IfNone, IsErrOf, OnOk};
ghost use Rattle.gate_journal.specs.File.{header, StandsAt};
ghost use Rattle.gate_journal.specs.Reading.{IsNoJournal, Refuses};
ghost use Rattle.gate_journal.specs.declared.fault.JournalFault.TheVariants as JournalFault;

use crate::JournalFault;
use crate::batch::Batch;
use crate::order::Times;
use crate::passing::pass_gate;
use octet_core::Memory;
use record_form::Entries;
use std::alloc::Global;

/// What stands before the first gate: SLEA, and the form 1.
pub const HEADER: [u8; 8] = *b"SLEA\x00\x00\x00\x01";

/// The entries that the octets of a file stand for, and where the gate behind them stands. One that
/// is no journal is refused as such, and not for want of memory: none is taken for it.
#[tactic(auto, using(crate::proofs::Verdicts::one_place, crate::proofs::Verdicts::header_leads))]
pub fn load(alloc: Global, file: &[u8]) -> Result<(Entries, u64), JournalFault>
    ensures stands { IfOk result (λ read. StandsAt read.0 read.1 file.now) }
    ensures within { IfOk result (λ read. read.1 < length file.now) }
    ensures refused { IfErr result (λ fault. Refuses fault file.now) }
    ensures no_journal { (place : ℕ) → IsNoJournal place file.now
        → IsErrOf result (JournalFault.NotJournal place) }
{
    if let Some(place) = first_difference(file) {
        return Err(JournalFault::NotJournal {
            place: place as u64,
        });
    }
    load_batches(alloc, file)
}

/// The place of the first octet of the header that is another one or missing.
pub fn first_difference(file: &[u8]) -> Option<usize>
    ensures header { IfNone result (file.now ≡ header ++ drop 8 file.now) }
    ensures other { IfSome result (λ place. IsNoJournal place file.now) }
{
    for (place, octet) in HEADER.iter().enumerate() {
        if place >= file.len() || file[place] != *octet {
            return Some(place);
        }
    }
    None
}

// The entries of the batches behind the header. A batch is gone over, and then its entries are
// kept.
fn load_batches(alloc: Global, file: &[u8]) -> Result<(Entries, u64), JournalFault>
    requires { file.now ≡ header ++ drop 8 file.now }
    ensures stands { IfOk result (λ read. StandsAt read.0 read.1 file.now) }
    ensures within { IfOk result (λ read. read.1 < length file.now) }
    ensures refused { IfErr result (λ fault. Refuses fault file.now) }
{
    archive_terms::laws::archive_grows();
    record_form::laws::read_where_spelled();
    record_form::laws::read_back();
    record_form::laws::slice(file);
    let mut entries = Entries::new(alloc);
    let mut times = Times::NONE;
    let mut gate = HEADER.len();
    while gate < file.len() {
        let Some((after, end)) = pass_gate(times, file, gate)? else {
            return Ok((entries, gate as u64));
        };
        keep(alloc, Batch::behind(file, gate), &mut entries)?;
        times = after;
        gate = end;
    }
    Err(JournalFault::Damaged {
        place: file.len() as u64,
    })
}

// Puts the entries of a batch behind others, with copies of their octets.
fn keep(alloc: Global, batch: Batch<'_>, entries: &mut Entries) -> Result<(), Memory>
    ensures { OnOk result (entries.new ≡ entries.old ++ batch.entry) }
{
    let mut batch = batch;
    while let Some(entry) = batch.next() {
        entries.push(entry.to_entry(alloc)?)?;
    }
    Ok(())
}
