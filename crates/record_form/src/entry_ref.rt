// An entry whose octets are lent.
ghost use Rattle.std.specs.Prelude.{◌≡◌, IfOk};
ghost use Rattle.record_form.specs.Entry.{entry_of};
ghost use Rattle.record_form.specs.Lent.{lent_entry};

use crate::Entry;
use cds_time::Cds;
use octet_core::{Memory, Octets};
use sle_numbers::{FrameQuality, LockStatus, ReturnProductionStatus};
use std::alloc::Global;

/// An entry of the archive that keeps no octets: an antenna's and a frame's are lent by what it was
/// read of, or by an entry. Its fields are those of an `Entry`.
#[derive(Clone, Copy, Debug)]
pub enum EntryRef<'a> {
    /// A transfer frame as received.
    Frame {
        /// Earth receive time.
        ert: Cds,
        /// How it was received.
        quality: FrameQuality,
        /// The antenna's identifier.
        antenna: &'a [u8],
        /// How many frames were lost between the frame before and this one.
        lost: u32,
        /// The frame.
        octets: &'a [u8],
    },
    /// Frame synchronisation was lost.
    LossOfSync {
        /// When.
        at: Cds,
        /// The carrier's lock status.
        carrier: LockStatus,
        /// The subcarrier's lock status.
        subcarrier: LockStatus,
        /// The symbol synchroniser's lock status.
        symbol: LockStatus,
    },
    /// The production status changed.
    Production {
        /// The status from now on.
        status: ReturnProductionStatus,
    },
    /// The archive is sealed up to a time.
    Seal {
        /// The last time that is sealed.
        at: Cds,
    },
}

impl EntryRef<'_> {
    /// The entry, with a copy of the octets that are lent.
    pub fn to_entry(self, alloc: Global) -> Result<Entry, Memory>
        ensures { IfOk result (λ entry. entry_of entry ≡ lent_entry self.entry) }
    {
        let entry = match self {
            EntryRef::Frame {
                ert,
                quality,
                antenna,
                lost,
                octets,
            } => Entry::Frame {
                ert,
                quality,
                antenna: Octets::copy_of(alloc, antenna)?,
                lost,
                octets: Octets::copy_of(alloc, octets)?,
            },
            EntryRef::LossOfSync {
                at,
                carrier,
                subcarrier,
                symbol,
            } => Entry::LossOfSync {
                at,
                carrier,
                subcarrier,
                symbol,
            },
            EntryRef::Production { status } => Entry::Production { status },
            EntryRef::Seal { at } => Entry::Seal { at },
        };
        Ok(entry)
    }
}

impl Entry {
    /// The entry, its octets lent.
    pub fn lend(&self) -> EntryRef<'_>
        ensures { lent_entry result ≡ entry_of self.now }
    {
        match self {
            Entry::Frame {
                ert,
                quality,
                antenna,
                lost,
                octets,
            } => EntryRef::Frame {
                ert: *ert,
                quality: *quality,
                antenna: antenna.as_slice(),
                lost: *lost,
                octets: octets.as_slice(),
            },
            Entry::LossOfSync {
                at,
                carrier,
                subcarrier,
                symbol,
            } => EntryRef::LossOfSync {
                at: *at,
                carrier: *carrier,
                subcarrier: *subcarrier,
                symbol: *symbol,
            },
            Entry::Production { status } => EntryRef::Production { status: *status },
            Entry::Seal { at } => EntryRef::Seal { at: *at },
        }
    }
}
