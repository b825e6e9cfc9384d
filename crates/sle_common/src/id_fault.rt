// Why a text gives no service instance identifier.
ghost use Rattle.std.specs.Prelude.{◌≡◌};
ghost use Rattle.sle_common.specs.declared.id_fault.IdFault.TheVariants.{Memory};

use std::alloc::{AllocError, AllocFailed};
use thiserror::Error;

/// Why a text gives no identifier.
#[derive(Clone, Copy, Debug, PartialEq, Eq, Error)]
pub enum IdFault {
    /// The text isn't an identifier's. Some identifier's text begins with its first `place` octets,
    /// and none with more.
    #[error("no identifier from octet {place} on")]
    BadText { place: usize },
    /// There was no memory.
    #[error("out of memory")]
    Memory,
}

impl From<AllocError> for IdFault {
    ghost from_gives = { λ _ fault. fault ≡ Memory };

    fn from(_: AllocError) -> IdFault {
        IdFault::Memory
    }
}

impl<T: Drop> From<AllocFailed<T>> for IdFault {
    ghost from_gives = { λ _ fault. fault ≡ Memory };

    fn from(_: AllocFailed<T>) -> IdFault {
        IdFault::Memory
    }
}

impl From<octet_core::Memory> for IdFault {
    ghost from_gives = { λ _ fault. fault ≡ Memory };

    fn from(_: octet_core::Memory) -> IdFault {
        IdFault::Memory
    }
}
