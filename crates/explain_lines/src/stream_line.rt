// What a line of a stream says.

use crate::kinds::{Antenna, Integer};
use cds_time::Cds;
use fcltu_numbers::CltuNotificationType;
use octet_core::Octets;
use sle_numbers::{FrameQuality, LockStatus};

/// What a line says that tells a message of a stream. A tag is the number of a PDU's outer tag.
#[derive(Debug, Drop)]
pub enum StreamLine {
    /// `frame TIME QUALITY CONTINUITY ANTENNA HEX`, of RCF without the quality.
    Frame {
        /// Its fields, in range or not.
        at: Cds,
        quality: Option<FrameQuality>,
        /// How many frames are missing before it, or that it isn't known.
        missing: Option<u32>,
        antenna: Antenna,
        octets: Octets,
    },
    /// `loss TIME A B S`.
    Loss {
        at: Cds,
        carrier: LockStatus,
        subcarrier: LockStatus,
        symbol: LockStatus,
    },
    /// `production P`.
    Production(Integer),
    /// `backlog`.
    Backlog,
    /// `end`.
    End,
    /// `ok N`: a positive return.
    Done {
        tag: u8,
    },
    /// `ok 11 NEXT FREE`: the positive return of TRANSFER-DATA.
    Taken {
        tag: u8,
        next: u32,
        free: Integer,
    },
    /// `no N D`: a negative return.
    Refused {
        tag: u8,
        diagnostic: Integer,
    },
    /// `no 11 D NEXT FREE`: the negative return of TRANSFER-DATA.
    NotTaken {
        tag: u8,
        diagnostic: Integer,
        next: u32,
        free: Integer,
    },
    /// `notice K`.
    Notice(CltuNotificationType),
    /// `report` and six or seven numbers.
    Report(Vec<Integer>),
    /// `abort D`.
    Aborted(u8),
    /// `parameter NAME`.
    Parameter(u8),
    /// `invoke N`.
    Invoked {
        tag: u8,
    },
    /// `bad message P`: the first octet's place in the stream.
    Bad {
        place: u64,
    },
}
