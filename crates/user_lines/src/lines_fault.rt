// Why the writing of lines stops.

use std::alloc::AllocError;
use thiserror::Error;

/// Why the writing of lines stops. What was written begins the lines.
#[derive(Clone, Copy, Debug, PartialEq, Eq, Error)]
pub enum LinesFault {
    /// The output failed.
    #[error("the output failed")]
    WriteFault,
    /// Memory was refused.
    #[error("out of memory")]
    Memory,
}

impl From<AllocError> for LinesFault {
    ghost use Rattle.std.specs.Prelude.{◌≡◌};
    ghost use Rattle.user_lines.specs.declared.lines_fault.LinesFault.TheVariants.{Memory};

    ghost from_gives = { λ _ fault. fault ≡ Memory };

    fn from(_: AllocError) -> LinesFault {
        LinesFault::Memory
    }
}
