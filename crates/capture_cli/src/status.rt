// How the program ends.

use std::alloc::AllocError;

/// How the program ended.
#[derive(Clone, Copy, Debug, PartialEq, Eq)]
pub enum Status {
    /// The messages of all lines were written.
    Done,
    /// The words are outside the grammar.
    Usage,
    /// The input failed.
    ReadFault,
    /// The output failed.
    WriteFault,
    /// The input has more octets than a text may have.
    TooLong,
    /// Memory was refused.
    Memory,
}

impl Status {
    /// The exit code.
    pub fn code(self) -> u8 {
        match self {
            Status::Done => 0,
            Status::Usage => 2,
            Status::ReadFault => 6,
            Status::WriteFault => 7,
            Status::TooLong => 11,
            Status::Memory => 70,
        }
    }
}

impl From<AllocError> for Status {
    ghost use Rattle.std.specs.Prelude.{◌≡◌};
    ghost use Rattle.capture_cli.specs.declared.status.Status.TheVariants.{Memory};

    ghost from_gives = { λ _ status. status ≡ Memory };

    fn from(_: AllocError) -> Status {
        Status::Memory
    }
}
