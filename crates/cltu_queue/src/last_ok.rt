// The CLTU that was radiated last without a fault.

use cds_time::Cds;

/// The CLTU that was radiated last without a fault (CCSDS 912.1-B, cltu-last-OK).
#[derive(Clone, Copy, Debug, PartialEq, Eq)]
pub enum LastOk {
    /// None since the START.
    None,
    /// This one.
    Some {
        /// Its identification.
        id: u32,
        /// When its radiation ended.
        stop: Cds,
    },
}
