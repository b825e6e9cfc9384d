// The status of forward production (CCSDS 912.1-B, annex A, ProductionStatus).
use sle_numbers::Numbered;
use std::fmt;

/// The status of forward production.
#[derive(Clone, Copy, Debug, PartialEq, Eq)]
pub enum CltuProductionStatus {
    Operational = 0,
    /// Equipment is assigned and doesn't radiate yet.
    Configured = 1,
    /// By a fault that may pass.
    Interrupted = 2,
    /// By management.
    Halted = 3,
}

impl Numbered for CltuProductionStatus {
    ghost use Rattle.fcltu_numbers.specs.CltuProductionStatus.{number_of, word_of, all, each};

    ghost number_of = { number_of };

    ghost word_of = { word_of };

    ghost all = { all };

    ghost each = { each };

    fn values() -> &'static [CltuProductionStatus] {
        &[
            CltuProductionStatus::Operational,
            CltuProductionStatus::Configured,
            CltuProductionStatus::Interrupted,
            CltuProductionStatus::Halted,
        ]
    }

    fn number(self) -> u8 {
        self as u8
    }

    fn word(self) -> &'static str {
        match self {
            CltuProductionStatus::Operational => "operational",
            CltuProductionStatus::Configured => "configured",
            CltuProductionStatus::Interrupted => "interrupted",
            CltuProductionStatus::Halted => "halted",
        }
    }
}

impl fmt::Display for CltuProductionStatus {
    fn fmt<W: fmt::Write>(&self, f: &mut fmt::Formatter<W>) -> fmt::Result {
        f.write_str(self.word())
    }
}
