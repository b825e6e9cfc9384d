// Why an input wasn't read.

use std::alloc::AllocError;
use thiserror::Error;

/// Why an input wasn't read.
#[derive(Clone, Copy, Debug, PartialEq, Eq, Error)]
pub enum InputFault {
    /// The input failed.
    #[error("the input failed")]
    ReadFault,
    /// The input holds more octets than it may.
    #[error("the input is too long")]
    TooLong,
    /// Memory was refused.
    #[error("out of memory")]
    Memory,
}

impl From<AllocError> for InputFault {
    ghost use Rattle.std.specs.Prelude.{◌≡◌};
    ghost use Rattle.whole_input.specs.declared.input_fault.InputFault.TheVariants.{Memory};

    ghost from_gives = { λ _ fault. fault ≡ Memory };

    fn from(_: AllocError) -> InputFault {
        InputFault::Memory
    }
}
