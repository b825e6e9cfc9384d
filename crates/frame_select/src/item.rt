// An item of a transfer buffer.

use cds_time::Cds;
use octet_core::Octets;
use sle_numbers::{FrameQuality, LockStatus, ReturnProductionStatus};

/// An item of a transfer buffer (CCSDS 911.1-B, RAF-TRANSFER-BUFFER). A clone shares the octets.
#[derive(Clone, Debug, Drop, PartialEq, Eq)]
pub enum Item {
    /// A picked frame. Its PDU has an annotation too, which is empty as long as none is kept here.
    Frame {
        /// Its place in the archive.
        place: u64,
        /// Earth receive time.
        ert: Cds,
        /// How it was received.
        quality: FrameQuality,
        /// The antenna's identifier, 1 to 16 octets.
        antenna: Octets,
        /// Frames lost since the last one that was handed over, or -1 where none was.
        continuity: i32,
        /// The frame, 1 to 65,536 octets.
        octets: Octets,
    },
    /// Frame synchronisation was lost.
    Loss {
        /// Its place in the archive.
        place: u64,
        /// When.
        at: Cds,
        /// The carrier's lock status.
        carrier: LockStatus,
        /// The subcarrier's lock status.
        subcarrier: LockStatus,
        /// The symbol synchroniser's lock status.
        symbol: LockStatus,
    },
    /// The production status changed.
    Production {
        /// Its place in the archive.
        place: u64,
        /// The status from then on.
        status: ReturnProductionStatus,
    },
    /// Data was discarded due to excessive backlog.
    Backlog,
    /// All that the START asks for was handed over.
    EndOfData,
}
