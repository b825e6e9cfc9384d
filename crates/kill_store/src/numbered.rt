// The entry that stands behind so many others.
ghost use Rattle.std.specs.Prelude.{◌≡◌, ◌%◌, IfOk, IsTrue};
ghost use Rattle.archive_terms.specs.Archive.{is_valid};
ghost use Rattle.sle_numbers.specs.FrameQuality.{number_of as quality_number};
ghost use Rattle.sle_numbers.specs.LockStatus.{number_of as lock_number};
ghost use Rattle.sle_numbers.specs.ReturnProductionStatus.{number_of as production_number};
ghost use Rattle.record_form.specs.Entry.{entry_of};
ghost use Rattle.kill_store.specs.Numbered.{time_of, numbered};

use cds_time::{Cds, Rest};
use octet_core::{Memory, Octets};
use record_form::Entry;
use sle_numbers::{FrameQuality, LockStatus, Numbered, ReturnProductionStatus};
use std::alloc::Global;

// A time that rises with the number, up to 86,400,000.
fn time_of(number: u64) -> Cds
    ensures { result ≡ time_of number }
{
    Cds {
        days: 20_000,
        millis: (number % 86_400_000) as u32,
        rest: Rest::Micros(0),
    }
}

// The values of tables in turn.
fn quality_of(number: u64) -> FrameQuality
    ensures { quality_number result ≡ number % 3 }
{
    let Some(quality) = FrameQuality::from_number((number % 3) as u8) else {
        unreachable!()
    };
    quality
}

fn lock_of(number: u64) -> LockStatus
    ensures { lock_number result ≡ number % 4 }
{
    let Some(lock) = LockStatus::from_number((number % 4) as u8) else {
        unreachable!()
    };
    lock
}

fn status_of(number: u64) -> ReturnProductionStatus
    ensures { production_number result ≡ number % 3 }
{
    let Some(status) = ReturnProductionStatus::from_number((number % 3) as u8) else {
        unreachable!()
    };
    status
}

/// The entry of a number: of eight in turn five frames of up to 1,000 octets, a loss of frame
/// synchronisation, a change of the production status and a seal.
#[tactic(auto, using(crate::proofs::Valid::is_time))]
pub fn numbered(alloc: Global, number: u64) -> Result<Entry, Memory>
    ensures entry { IfOk result (λ entry. entry_of entry ≡ numbered number) }
    ensures valid { IfOk result (λ entry. IsTrue (is_valid (entry_of entry))) }
{
    let at = time_of(number);
    let kind = number % 8;
    if kind == 5 {
        return Ok(Entry::LossOfSync {
            at,
            carrier: lock_of(number),
            subcarrier: LockStatus::OutOfLock,
            symbol: LockStatus::NotInUse,
        });
    }
    if kind == 6 {
        return Ok(Entry::Production {
            status: status_of(number),
        });
    }
    if kind == 7 {
        return Ok(Entry::Seal { at });
    }
    let length = 1 + (number % 1_000) * 37 % 1_000;
    let octets = vec![in alloc; (number % 251) as u8; length as usize]?;
    Ok(Entry::Frame {
        ert: at,
        quality: quality_of(number),
        antenna: Octets::copy_of(alloc, b"A")?,
        lost: (number % 10) as u32,
        octets: Octets::from_vec(alloc, octets)?,
    })
}
