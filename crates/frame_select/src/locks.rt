// The locks of a status report.

use sle_numbers::LockStatus;

/// The lock statuses of a status report (CCSDS 911.1-B, RAF-STATUS-REPORT).
#[derive(Clone, Copy, Debug, PartialEq, Eq)]
pub struct Locks {
    /// The frame synchroniser's.
    pub frame_sync: LockStatus,
    /// The symbol synchroniser's.
    pub symbol: LockStatus,
    /// The subcarrier's.
    pub subcarrier: LockStatus,
    /// The carrier's.
    pub carrier: LockStatus,
}
