// What entries tell together.
ghost use Rattle.std.specs.Prelude.{◌≡◌, max, ◌+◌, ◌<◌, ◌^◌, ◌≤◌};
ghost use Rattle.std.specs.Option.{option_map_or};
ghost use Rattle.cds_time.specs.Moment.{moment_of};
ghost use Rattle.archive_terms.specs.Continuity.{lost_of};
ghost use Rattle.record_form.specs.Entry.{entry_of};
ghost use Rattle.frame_select.specs.Glimpse.{locks_of};
ghost use Rattle.sle_numbers.specs.LockStatus.{number_of as lock_number};
ghost use Rattle.sle_numbers.specs.ReturnProductionStatus.{number_of as production_number};

use cds_time::Cds;
use frame_select::Locks;
use record_form::Entry;
use sle_numbers::{LockStatus, Numbered, ReturnProductionStatus};

/// What entries tell together, as numbers: whether a start is reached and a stop closed, how many
/// frames were lost, and the statuses of a report.
#[derive(Clone, Copy, Debug, PartialEq, Eq)]
pub(crate) struct Totals {
    // The first moment above the times of all frames, and above those of all seals: 0 where there
    // is none.
    pub(crate) frames_end: u128,
    pub(crate) seals_end: u128,
    // Frames lost.
    pub(crate) lost: u64,
    // The statuses of a report, by the standard's numbers.
    pub(crate) frame_sync: u8,
    pub(crate) symbol: u8,
    pub(crate) subcarrier: u8,
    pub(crate) carrier: u8,
    pub(crate) production: u8,
}

// All locks are unknown, and the production runs.
pub(crate) const NONE: Totals = Totals {
    frames_end: 0,
    seals_end: 0,
    lost: 0,
    frame_sync: LockStatus::Unknown as u8,
    symbol: LockStatus::Unknown as u8,
    subcarrier: LockStatus::Unknown as u8,
    carrier: LockStatus::Unknown as u8,
    production: ReturnProductionStatus::Running as u8,
};

// How many frames were lost before an entry.
pub(crate) fn lost_of(entry: &Entry) -> u64
    ensures exact { result ≡ lost_of (entry_of entry.now) }
    ensures below { result < 2 ^ 32 }
{
    match entry {
        Entry::Frame { lost, .. } => u64::from(*lost),
        _ => 0,
    }
}

impl Totals {
    ghost use Rattle.archive_index.specs.IndexState.{totals_with, totals_seen};
    ghost use Rattle.archive_index.specs.IndexState.{has_closed, is_in_order};

    // With one entry more after them.
    pub(crate) fn with(&self, entry: &Entry) -> Totals
        requires { self.now.lost + lost_of (entry_of entry.now) < 2 ^ 64 }
        ensures { totals_seen result ≡ totals_with (totals_seen self.now) (entry_of entry.now) }
    {
        let mut totals = *self;
        match entry {
            Entry::Frame { ert, lost, .. } => {
                totals.frames_end = end_with(self.frames_end, ert);
                totals.lost = self.lost + u64::from(*lost);
                totals.frame_sync = LockStatus::InLock.number();
                totals.symbol = LockStatus::InLock.number();
                totals.subcarrier = LockStatus::InLock.number();
                totals.carrier = LockStatus::InLock.number();
            }
            Entry::LossOfSync {
                carrier,
                subcarrier,
                symbol,
                ..
            } => {
                totals.frame_sync = LockStatus::OutOfLock.number();
                totals.symbol = symbol.number();
                totals.subcarrier = subcarrier.number();
                totals.carrier = carrier.number();
            }
            Entry::Production { status } => totals.production = status.number(),
            Entry::Seal { at } => totals.seals_end = end_with(self.seals_end, at),
        }
        totals
    }

    // Whether an entry keeps the order of times after these.
    pub(crate) fn is_in_order(&self, entry: &Entry) -> bool
        ensures { result ≡ is_in_order (totals_seen self.now) (entry_of entry.now) }
    {
        match entry {
            Entry::Frame { ert, .. } => ert
                .moment()
                .is_none_or(|at| self.frames_end <= at + 1 && self.seals_end <= at),
            Entry::Seal { at } => at.moment().is_none_or(|at| self.seals_end <= at + 1),
            _ => true,
        }
    }

    // Whether a stop is known, and closed by a frame above it or a seal at it or later.
    pub(crate) fn has_closed(&self, stop: Option<u128>) -> bool
        ensures { result ≡ has_closed (totals_seen self.now) stop }
    {
        stop.is_some_and(|stop| stop < self.frames_end.saturating_sub(1) || stop < self.seals_end)
    }

    // The locks of a report.
    pub(crate) fn locks(&self) -> Locks
        requires frame_sync { self.now.frame_sync ≤ 3 }
        requires symbol { self.now.symbol ≤ 3 }
        requires subcarrier { self.now.subcarrier ≤ 3 }
        requires carrier { self.now.carrier ≤ 3 }
        ensures { locks_of result ≡ (totals_seen self.now).locks }
    {
        Locks {
            frame_sync: lock_status(self.frame_sync),
            symbol: lock_status(self.symbol),
            subcarrier: lock_status(self.subcarrier),
            carrier: lock_status(self.carrier),
        }
    }

    // The production status of a report.
    pub(crate) fn production(&self) -> ReturnProductionStatus
        requires { self.now.production ≤ 2 }
        ensures { production_number result ≡ self.now.production }
    {
        match ReturnProductionStatus::from_number(self.production) {
            Some(status) => status,
            None => unreachable!(),
        }
    }
}

// The lock status of a number.
fn lock_status(number: u8) -> LockStatus
    requires { number ≤ 3 }
    ensures { lock_number result ≡ number }
{
    match LockStatus::from_number(number) {
        Some(status) => status,
        None => unreachable!(),
    }
}

// A first moment above times, with one time more.
fn end_with(end: u128, time: &Cds) -> u128
    ensures { result ≡ option_map_or (λ t. max end (t + 1)) (moment_of time.now) end }
{
    time.moment().map_or(end, |moment| end.max(moment + 1))
}
