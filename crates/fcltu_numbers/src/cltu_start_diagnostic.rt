// Why a START of FCLTU is refused (CCSDS 912.1-B, annex A, DiagnosticCltuStart).
use sle_numbers::Numbered;
use std::fmt;

/// Why a START of FCLTU is refused: a reason of its own.
#[derive(Clone, Copy, Debug, PartialEq, Eq)]
pub enum CltuStartDiagnostic {
    /// Production is halted.
    OutOfService = 0,
    UnableToComply = 1,
    ProductionTimeExpired = 2,
    InvalidCltuId = 3,
}

impl Numbered for CltuStartDiagnostic {
    ghost use Rattle.fcltu_numbers.specs.CltuStartDiagnostic.{number_of, word_of, all, each};

    ghost number_of = { number_of };

    ghost word_of = { word_of };

    ghost all = { all };

    ghost each = { each };

    fn values() -> &'static [CltuStartDiagnostic] {
        &[
            CltuStartDiagnostic::OutOfService,
            CltuStartDiagnostic::UnableToComply,
            CltuStartDiagnostic::ProductionTimeExpired,
            CltuStartDiagnostic::InvalidCltuId,
        ]
    }

    fn number(self) -> u8 {
        self as u8
    }

    fn word(self) -> &'static str {
        match self {
            CltuStartDiagnostic::OutOfService => "outOfService",
            CltuStartDiagnostic::UnableToComply => "unableToComply",
            CltuStartDiagnostic::ProductionTimeExpired => "productionTimeExpired",
            CltuStartDiagnostic::InvalidCltuId => "invalidCltuId",
        }
    }
}

impl fmt::Display for CltuStartDiagnostic {
    fn fmt<W: fmt::Write>(&self, f: &mut fmt::Formatter<W>) -> fmt::Result {
        f.write_str(self.word())
    }
}
