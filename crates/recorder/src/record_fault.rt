// Why a step of the recorder doesn't end well.
ghost use Rattle.std.specs.Prelude.{◌≡◌};
ghost use Rattle.recorder.specs.declared.record_fault.RecordFault.TheVariants as RecordFault;

use frame_archive::ArchiveFault;
use octet_core::Memory;
use thiserror::Error;

/// Why a step of the recorder doesn't end well.
#[derive(Clone, Copy, Debug, PartialEq, Eq, Error)]
pub enum RecordFault {
    /// The source failed. Nothing that was polled in this step was stored.
    #[error("the source failed")]
    SourceFault,
    /// A reopen failed, or the second store of the same entries.
    #[error("disk fault")]
    DiskFault,
    /// A reopen found no journal, a damaged one, or entries of someone else.
    #[error("refused: {0}")]
    Refused(ArchiveFault),
    /// Memory was wanted and refused.
    #[error("out of memory")]
    Memory,
}

impl From<Memory> for RecordFault {
    ghost from_gives = { λ _ fault. fault ≡ RecordFault.Memory };

    fn from(_: Memory) -> RecordFault {
        RecordFault::Memory
    }
}
