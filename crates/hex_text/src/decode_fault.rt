// Why a text wasn't read as octets.

use std::alloc::AllocError;
use thiserror::Error;

/// Why a text wasn't read as octets.
#[derive(Clone, Copy, Debug, PartialEq, Eq, Error)]
pub enum DecodeFault {
    /// The text isn't an even number of hexadecimal digits.
    #[error("not an even number of hexadecimal digits")]
    NoDigits,
    /// Out of memory.
    #[error("out of memory")]
    Memory,
}

impl From<AllocError> for DecodeFault {
    ghost use Rattle.std.specs.Prelude.{◌≡◌};
    ghost use Rattle.hex_text.specs.declared.decode_fault.DecodeFault.TheVariants.{Memory};

    ghost from_gives = { λ _ fault. fault ≡ Memory };

    fn from(_: AllocError) -> DecodeFault {
        DecodeFault::Memory
    }
}
