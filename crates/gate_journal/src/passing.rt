// Going over the entries of a file, of which the last times are kept and nothing else.
ghost use Rattle.std.specs.Prelude.{◌≡◌, ◌≤◌, ◌<◌, ◌+◌, List, Ok, IfOk, IfSome, length};
ghost use Rattle.archive_terms.specs.Archive.{Entry};
ghost use Rattle.gate_journal.specs.Order.{Knows};
ghost use Rattle.gate_journal.specs.Passing.{Passes, PassesGate};
ghost use Rattle.gate_journal.specs.Reading.{next_entry, entries_at, batch_at, gate_at};
ghost use Rattle.gate_journal.specs.Reading.{fault_place, first_fault, ending_at};
ghost use Rattle.gate_journal.specs.declared.fault.JournalFault.TheVariants.{Damaged};
ghost use Rattle.std.specs.Prelude.{Some};

use crate::JournalFault;
use crate::order::Times;
use record_form::{EntryFault, read_entry_ref_at, read_ert_at};

/// The octet of a gate behind which a batch stands.
pub const OPEN: u8 = 0xa5;

/// The most entries of a batch.
pub const LONGEST_BATCH: u16 = 256;

/// Passes the gate at a place of a file and the batch behind it, where that gate is open: the times
/// behind the batch, and where it ends. None where the gate isn't open.
#[tactic(auto, unfolding(crate::specs::Reading::gate_at))]
pub fn pass_gate(
    times: Times,
    file: &[u8],
    place: usize,
) -> Result<Option<(Times, usize)>, JournalFault>
    ensures exact { PassesGate times result (λ before. gate_at before file.now place) }
    ensures behind { IfOk result (λ passed. IfSome passed (λ p. place + 7 ≤ p.1)) }
    ensures within { IfOk result (λ passed. IfSome passed (λ p. p.1 ≤ length file.now)) }
    ensures there { IfOk result (λ _. place < length file.now) }
{
    if place >= file.len() {
        return Err(JournalFault::Damaged {
            place: file.len() as u64,
        });
    }
    if file[place] != OPEN {
        return Ok(None);
    }
    let passed = pass_batch(times, file, place + 1)?;
    Ok(Some(passed))
}

// Passes the batch at a place: the times behind it, and where it ends.
#[tactic(auto, unfolding(crate::specs::Reading::batch_at))]
fn pass_batch(times: Times, file: &[u8], place: usize) -> Result<(Times, usize), JournalFault>
    requires { place ≤ length file.now }
    ensures exact { Passes times result (λ before. batch_at before file.now place) }
    ensures behind { IfOk result (λ passed. place + 6 ≤ passed.1) }
    ensures within { IfOk result (λ passed. passed.1 ≤ length file.now) }
{
    if file.len() - place < 6 {
        return Err(JournalFault::Damaged {
            place: file.len() as u64,
        });
    }
    let size = u32::from_be_bytes(file[place..place + 4].try_into().unwrap());
    let count = u16::from_be_bytes(file[place + 4..place + 6].try_into().unwrap());
    if count < 1 || LONGEST_BATCH < count {
        return Err(JournalFault::Damaged {
            place: place as u64 + 4,
        });
    }
    let stated = place as u64 + 6 + u64::from(size);
    ended(stated, pass_entries(times, count, file, place + 6))
}

// What a batch that states where its entries end comes to: where they end elsewhere, or are at
// fault, the lesser of the two places is named.
fn ended(
    length: u64,
    pass: Result<(Times, usize), JournalFault>,
) -> Result<(Times, usize), JournalFault>
    ensures exact { result ≡ ending_at length pass }
    ensures same { IfOk result (λ p. pass ≡ Ok p) }
{
    match pass {
        Ok((_, end)) if end as u64 != length => Err(JournalFault::Damaged {
            place: (end as u64).min(length),
        }),
        Err(JournalFault::Damaged { place }) => Err(JournalFault::Damaged {
            place: place.min(length),
        }),
        pass => pass,
    }
}

// Passes so many entries from a place on: the times behind them, and where they end.
fn pass_entries(
    times: Times,
    count: u16,
    file: &[u8],
    place: usize,
) -> Result<(Times, usize), JournalFault>
    requires { place ≤ length file.now }
    ensures exact { Passes times result (λ before. entries_at count before file.now place) }
    ensures behind { IfOk result (λ passed. place ≤ passed.1) }
    ensures within { IfOk result (λ passed. passed.1 ≤ length file.now) }
{
    let mut times = times;
    let mut end = place;
    for _ in 0..count {
        (times, end) = pass_entry(times, file, end)?;
    }
    Ok((times, end))
}

// Passes the entry that begins at a place: the times behind it, and where it ends.
fn pass_entry(times: Times, file: &[u8], place: usize) -> Result<(Times, usize), JournalFault>
    requires { place ≤ length file.now }
    ensures exact { Passes times result (λ before. next_entry before file.now place) }
    ensures behind { IfOk result (λ passed. place ≤ passed.1) }
    ensures within { IfOk result (λ passed. passed.1 ≤ length file.now) }
{
    archive_terms::laws::archive_grows();
    let (entry, end) = match read_entry_ref_at(file, place) {
        Ok(read) => read,
        Err(fault) => return Err(first_fault(times, file, place, fault)),
    };
    match times.with(entry) {
        Some(times) => Ok((times, end)),
        None => Err(JournalFault::Damaged {
            place: place as u64 + 1,
        }),
    }
}

// What a fault of the entry that begins at a place is for the file. A frame's time that breaks the
// order stands before the field at fault.
fn first_fault(times: Times, file: &[u8], place: usize, fault: EntryFault) -> JournalFault
    requires { place ≤ length file.now }
    ensures { (before : List Entry) → Knows before (Some times)
        → result ≡ Damaged (first_fault before file.now place fault) }
{
    let place = if times.is_late(read_ert_at(file, place)) {
        place as u64 + 1
    } else {
        fault_place(file, place, fault) as u64
    };
    JournalFault::Damaged { place }
}

// The place of a fault of the entry that begins at a place, by itself. Reading an entry whose
// octets are lent wants no memory.
fn fault_place(file: &[u8], place: usize, fault: EntryFault) -> usize
    ensures { result ≡ fault_place file.now place fault }
{
    match fault {
        EntryFault::Cut => file.len(),
        EntryFault::BadField { place } => place,
        EntryFault::BadKind { .. } | EntryFault::Memory => place,
    }
}
