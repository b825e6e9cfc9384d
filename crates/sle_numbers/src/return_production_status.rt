// The status of return production (CCSDS 911.1-B, annex A, RafProductionStatus).
use crate::numbered::Numbered;
use std::fmt;

/// The status of return production.
#[derive(Clone, Copy, Debug, PartialEq, Eq)]
pub enum ReturnProductionStatus {
    Running = 0,
    /// By a fault that may pass.
    Interrupted = 1,
    /// By management.
    Halted = 2,
}

impl Numbered for ReturnProductionStatus {
    ghost use Rattle.sle_numbers.specs.ReturnProductionStatus.{number_of, word_of, all, each};

    ghost number_of = { number_of };

    ghost word_of = { word_of };

    ghost all = { all };

    ghost each = { each };

    fn values() -> &'static [ReturnProductionStatus] {
        &[
            ReturnProductionStatus::Running,
            ReturnProductionStatus::Interrupted,
            ReturnProductionStatus::Halted,
        ]
    }

    fn number(self) -> u8 {
        self as u8
    }

    fn word(self) -> &'static str {
        match self {
            ReturnProductionStatus::Running => "running",
            ReturnProductionStatus::Interrupted => "interrupted",
            ReturnProductionStatus::Halted => "halted",
        }
    }
}

impl fmt::Display for ReturnProductionStatus {
    fn fmt<W: fmt::Write>(&self, f: &mut fmt::Formatter<W>) -> fmt::Result {
        f.write_str(self.word())
    }
}
