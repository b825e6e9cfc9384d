// How a command ends.
ghost use Rattle.std.specs.Prelude.{◌≡◌};
ghost use Rattle.command_ends.specs.Ends.{code};

/// How a command ended.
#[derive(Clone, Copy, Debug, PartialEq, Eq)]
pub enum Status {
    /// All was done.
    Done,
    /// The words are no command.
    Usage,
    /// A line of the script is outside the grammar or in a wrong state.
    BadLine,
    /// A line of the configuration is refused.
    BadSite,
    /// The file isn't an archive's, or, for a new one, isn't empty.
    ArchiveRefused,
    /// The input failed.
    ReadFault,
    /// The output failed.
    WriteFault,
    /// The disk failed.
    DiskFault,
    /// All was done, and an entry was refused as Full.
    Full,
    /// The input holds more octets than a script may have.
    InputTooLong,
    /// Memory was refused.
    Memory,
}

impl Status {
    /// The program's exit code.
    pub fn code(self) -> u8
        ensures { result ≡ code self }
    {
        match self {
            Status::Done => 0,
            Status::Usage => 2,
            Status::BadLine => 3,
            Status::BadSite => 4,
            Status::ArchiveRefused => 5,
            Status::ReadFault => 6,
            Status::WriteFault => 7,
            Status::DiskFault => 8,
            Status::Full => 9,
            Status::InputTooLong => 11,
            Status::Memory => 70,
        }
    }
}
