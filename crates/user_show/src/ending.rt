// How a user program ends.
ghost use Rattle.std.specs.Prelude.{◌≡◌};
ghost use Rattle.user_show.specs.Ending.{code};

/// How a user program ends.
#[derive(Clone, Copy, Debug, PartialEq, Eq)]
pub enum Ending {
    Done,
    /// The command line is outside the grammar.
    Usage,
    /// An invocation was refused.
    Refused,
    /// A message is bad.
    BadMessage,
    /// The input failed.
    ReadFault,
    /// The output failed.
    WriteFault,
    /// The link failed.
    LinkFault,
    /// The last poll was made.
    TurnsSpent,
    /// The peer has closed, or aborted.
    PeerEnded,
    /// The input holds more octets than it may.
    InputTooLong,
    /// A line of the input is bad.
    BadLine,
    /// Memory was refused.
    Memory,
}

impl Ending {
    /// The program's exit code.
    pub fn code(self) -> u8
        ensures { result ≡ code self }
    {
        match self {
            Ending::Done => 0,
            Ending::Usage => 2,
            Ending::Refused => 3,
            Ending::BadMessage => 5,
            Ending::ReadFault => 6,
            Ending::WriteFault => 7,
            Ending::LinkFault => 8,
            Ending::TurnsSpent => 10,
            Ending::PeerEnded => 11,
            Ending::InputTooLong => 12,
            Ending::BadLine => 13,
            Ending::Memory => 70,
        }
    }
}
