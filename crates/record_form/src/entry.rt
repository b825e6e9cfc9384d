// An entry.
ghost use Rattle.std.specs.Prelude.{◌≡◌};
ghost use Rattle.archive_terms.specs.Archive.{is_moment, is_valid, is_short, is_storable};
ghost use Rattle.record_form.specs.Entry.{entry_of};

use crate::kind::LONGEST_ANTENNA;
use archive_terms::{GREATEST_LOST, LONGEST_FRAME};
use cds_time::Cds;
use octet_core::Octets;
use sle_numbers::{FrameQuality, LockStatus, ReturnProductionStatus};

/// An entry of the archive. A clone shares the octets.
#[derive(Clone, Debug, Drop, PartialEq, Eq)]
pub enum Entry {
    /// A transfer frame as received (CCSDS 911.1-B, RAF-TRANSFER-DATA).
    Frame {
        /// Earth receive time.
        ert: Cds,
        /// How it was received.
        quality: FrameQuality,
        /// The antenna's identifier, 1 to 16 octets.
        antenna: Octets,
        /// How many frames were lost between the frame before and this one, at most 16,777,215.
        lost: u32,
        /// The frame, 1 to 65,536 octets.
        octets: Octets,
    },
    /// Frame synchronisation was lost (CCSDS 911.1-B, RAF-SYNC-NOTIFY).
    LossOfSync {
        /// When.
        at: Cds,
        /// The carrier's lock status.
        carrier: LockStatus,
        /// The subcarrier's lock status.
        subcarrier: LockStatus,
        /// The symbol synchroniser's lock status.
        symbol: LockStatus,
    },
    /// The production status changed.
    Production {
        /// The status from now on.
        status: ReturnProductionStatus,
    },
    /// The archive is sealed up to a time: each later frame has a later one.
    Seal {
        /// The last time that is sealed.
        at: Cds,
    },
}

impl Entry {
    /// Whether each field is in its range and each time names a moment. A frame may be longer than
    /// an archive takes.
    pub fn is_valid(&self) -> bool
        ensures { result ≡ is_valid (entry_of self.now) }
    {
        match self {
            Entry::Frame {
                ert,
                antenna,
                lost,
                octets,
                ..
            } => {
                names_moment(ert)
                    && !antenna.is_empty()
                    && antenna.len() <= LONGEST_ANTENNA as usize
                    && *lost <= GREATEST_LOST
                    && !octets.is_empty()
            }
            Entry::LossOfSync { at, .. } => names_moment(at),
            Entry::Production { .. } => true,
            Entry::Seal { at } => names_moment(at),
        }
    }

    /// Whether an archive may hold the entry: it is valid, and a frame has at most 65,536 octets.
    pub fn is_storable(&self) -> bool
        ensures { result ≡ is_storable (entry_of self.now) }
    {
        self.is_valid() && self.is_short()
    }

    fn is_short(&self) -> bool
        ensures { result ≡ is_short (entry_of self.now) }
    {
        match self {
            Entry::Frame { octets, .. } => octets.len() <= LONGEST_FRAME,
            _ => true,
        }
    }
}

fn names_moment(time: &Cds) -> bool
    ensures { result ≡ is_moment time.now }
{
    time.moment().is_some()
}
