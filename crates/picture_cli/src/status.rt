// How the program ends.

use std::alloc::AllocError;
use whole_input::InputFault;

/// How the program ended.
#[derive(Clone, Copy, Debug, PartialEq, Eq)]
pub enum Status {
    /// The page was written.
    Done,
    /// The words are outside the grammar, or the input doesn't begin with a script.
    Usage,
    /// The input failed.
    ReadFault,
    /// The output failed.
    WriteFault,
    /// The input has more octets than it may have.
    TooLong,
    /// Memory was refused.
    Memory,
}

impl Status {
    /// The exit code.
    pub fn code(self) -> u8 {
        match self {
            Status::Done => 0,
            Status::Usage => 2,
            Status::ReadFault => 6,
            Status::WriteFault => 7,
            Status::TooLong => 11,
            Status::Memory => 70,
        }
    }

    /// How it ends where the input wasn't read.
    pub fn of_input(fault: InputFault) -> Status {
        match fault {
            InputFault::ReadFault => Status::ReadFault,
            InputFault::TooLong => Status::TooLong,
            InputFault::Memory => Status::Memory,
        }
    }
}

impl From<AllocError> for Status {
    ghost use Rattle.std.specs.Prelude.{◌≡◌};
    ghost use Rattle.picture_cli.specs.declared.status.Status.TheVariants.{Memory};

    ghost from_gives = { λ _ status. status ≡ Memory };

    fn from(_: AllocError) -> Status {
        Status::Memory
    }
}
