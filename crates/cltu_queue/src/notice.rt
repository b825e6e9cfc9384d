// What a user is told without having asked.

use crate::last_ok::LastOk;
use crate::processed::Processed;
use fcltu_numbers::{CltuNotificationType, CltuProductionStatus, UplinkStatus};

/// What CLTU-ASYNC-NOTIFY tells (CCSDS 912.1-B), as things stood when the notice was made.
#[derive(Clone, Copy, Debug, PartialEq, Eq)]
pub struct Notice {
    /// Its kind. No notice of an event is made.
    pub kind: CltuNotificationType,
    /// The CLTU that was processed last.
    pub processed: Processed,
    /// The CLTU that was radiated last without a fault.
    pub ok: LastOk,
    /// The production status.
    pub production: CltuProductionStatus,
    /// The uplink status.
    pub status: UplinkStatus,
}
