// How a run ends.
ghost use Rattle.std.specs.Prelude.{◌≡◌};
ghost use Rattle.run_command.specs.Statuses.{code_of};

/// How a run ends.
#[derive(Clone, Copy, Debug, PartialEq, Eq)]
pub enum RunStatus {
    /// All was done.
    Done,
    /// This line of the configuration is refused, for this cause.
    BadSite { number: u32, cause: u8 },
    /// The archive's file isn't of its form at this place.
    Refused { place: u64 },
    /// The archive's file holds `found` entries, where `expected` were acknowledged.
    Changed { expected: u64, found: u64 },
    /// The input, the source of entries or a door failed.
    ReadFault,
    /// The output failed.
    WriteFault,
    /// The disk failed.
    DiskFault,
    /// An entry was refused as Full.
    Full,
    /// A worker's turns ran out.
    TurnsSpent,
    /// The input holds more octets than a configuration may have.
    InputTooLong,
    /// Memory was refused.
    Memory,
}

impl RunStatus {
    /// The program's exit code.
    pub fn code(self) -> u8
        ensures { result ≡ code_of self }
    {
        match self {
            RunStatus::Done => 0,
            RunStatus::BadSite { .. } => 4,
            RunStatus::Refused { .. } | RunStatus::Changed { .. } => 5,
            RunStatus::ReadFault => 6,
            RunStatus::WriteFault => 7,
            RunStatus::DiskFault => 8,
            RunStatus::Full => 9,
            RunStatus::TurnsSpent => 10,
            RunStatus::InputTooLong => 11,
            RunStatus::Memory => 70,
        }
    }
}
