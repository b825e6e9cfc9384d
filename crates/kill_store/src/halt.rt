// Why no further entry is stored.
ghost use Rattle.std.specs.Prelude.{◌≡◌};
ghost use Rattle.kill_store.specs.declared.halt.Halt.TheVariants as Halt;

use frame_archive::{ArchiveFault, OfferFault};
use gate_journal::JournalFault;
use octet_core::Memory;
use std::alloc::AllocError;
use thiserror::Error;

/// Why no further entry is stored.
#[derive(Clone, Copy, Debug, PartialEq, Eq, Error)]
pub enum Halt {
    /// No archive is made.
    #[error("not made: {0}")]
    Unmade(JournalFault),
    /// The archive isn't opened, or the entry that waits isn't stored.
    #[error("{0}")]
    Archive(ArchiveFault),
    /// The entry isn't taken.
    #[error("not taken: {0}")]
    Refused(OfferFault),
    /// The output failed.
    #[error("write fault")]
    WriteFault,
    /// Memory was wanted and refused.
    #[error("out of memory")]
    Memory,
}

impl From<Memory> for Halt {
    ghost from_gives = { λ _ halt. halt ≡ Halt.Memory };

    fn from(_: Memory) -> Halt {
        Halt::Memory
    }
}

impl From<AllocError> for Halt {
    ghost from_gives = { λ _ halt. halt ≡ Halt.Memory };

    fn from(_: AllocError) -> Halt {
        Halt::Memory
    }
}
