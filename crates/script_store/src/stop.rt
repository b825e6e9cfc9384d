// Why a line is stopped.
ghost use Rattle.std.specs.Prelude.{◌≡◌};
ghost use Rattle.script_store.specs.declared.stop.Stop.TheVariants.{Memory};

use octet_core::Memory as Refused;
use std::alloc::{AllocError, AllocFailed};

/// Why a line is stopped, or the writing of its text.
#[derive(Clone, Copy, Debug, PartialEq, Eq)]
pub enum Stop {
    /// The output failed.
    WriteFault,
    /// Memory was refused.
    Memory,
}

impl From<Refused> for Stop {
    ghost from_gives = { λ _ stop. stop ≡ Memory };

    fn from(_: Refused) -> Stop {
        Stop::Memory
    }
}

impl From<AllocError> for Stop {
    ghost from_gives = { λ _ stop. stop ≡ Memory };

    fn from(_: AllocError) -> Stop {
        Stop::Memory
    }
}

impl<T: Drop> From<AllocFailed<T>> for Stop {
    ghost from_gives = { λ _ stop. stop ≡ Memory };

    fn from(_: AllocFailed<T>) -> Stop {
        Stop::Memory
    }
}
