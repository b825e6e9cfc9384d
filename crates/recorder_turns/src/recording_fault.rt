// Why a recorder's worker stops.

use frame_archive::ArchiveFault;
use thiserror::Error;

/// Why a recorder's worker stops before its source's end.
#[derive(Clone, Copy, Debug, PartialEq, Eq, Error)]
pub enum RecordingFault {
    /// The source failed. Nothing that was polled in the last step was stored.
    #[error("the source failed")]
    SourceFault,
    /// A reopen failed, or the second store of the same entries.
    #[error("disk fault")]
    DiskFault,
    /// A reopen found no journal, a damaged one, or entries of someone else.
    #[error("refused: {0}")]
    Refused(ArchiveFault),
    /// The stored entries don't follow the published ones, so another worker publishes too.
    #[error("the entries don't follow the published ones")]
    Foreign,
    /// One turn is left, which the worker's end wants.
    #[error("turns spent")]
    TurnsSpent,
    /// Memory was wanted and refused.
    #[error("out of memory")]
    Memory,
}
