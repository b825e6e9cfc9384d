// What a status report tells.

use crate::last_ok::LastOk;
use crate::processed::Processed;
use fcltu_numbers::{CltuProductionStatus, UplinkStatus};

/// The numbers of CLTU-STATUS-REPORT (CCSDS 912.1-B). The counts are of the run, and stay at
/// 4,294,967,295.
#[derive(Clone, Copy, Debug, PartialEq, Eq)]
pub struct UplinkView {
    /// The CLTU that was processed last.
    pub processed: Processed,
    /// The CLTU that was radiated last without a fault.
    pub ok: LastOk,
    /// The production status.
    pub production: CltuProductionStatus,
    /// The uplink status.
    pub status: UplinkStatus,
    /// How many CLTUs were accepted.
    pub received: u32,
    /// How many takes radiated a CLTU or found it expired.
    pub taken: u32,
    /// How many CLTUs were radiated to their end.
    pub radiated: u32,
    /// How many octets further CLTUs may have.
    pub free: u32,
}
