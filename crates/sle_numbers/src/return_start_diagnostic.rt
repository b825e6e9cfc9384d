// Why a START of RAF or RCF is refused (CCSDS 911.1-B and 911.2-B, annex A, DiagnosticRafStart and
// DiagnosticRcfStart).
use crate::numbered::Numbered;
use std::fmt;

/// Why a START of RAF or RCF is refused: a reason of its own.
#[derive(Clone, Copy, Debug, PartialEq, Eq)]
pub enum ReturnStartDiagnostic {
    /// Production is halted.
    OutOfService = 0,
    UnableToComply = 1,
    InvalidStartTime = 2,
    /// It is no time, or lies before the start.
    InvalidStopTime = 3,
    /// Offline delivery wants both times.
    MissingTimeValue = 4,
    /// The instance doesn't have the channel; of RCF alone.
    InvalidGvcId = 5,
}

impl Numbered for ReturnStartDiagnostic {
    ghost use Rattle.sle_numbers.specs.ReturnStartDiagnostic.{number_of, word_of, all, each};

    ghost number_of = { number_of };

    ghost word_of = { word_of };

    ghost all = { all };

    ghost each = { each };

    fn values() -> &'static [ReturnStartDiagnostic] {
        &[
            ReturnStartDiagnostic::OutOfService,
            ReturnStartDiagnostic::UnableToComply,
            ReturnStartDiagnostic::InvalidStartTime,
            ReturnStartDiagnostic::InvalidStopTime,
            ReturnStartDiagnostic::MissingTimeValue,
            ReturnStartDiagnostic::InvalidGvcId,
        ]
    }

    fn number(self) -> u8 {
        self as u8
    }

    fn word(self) -> &'static str {
        match self {
            ReturnStartDiagnostic::OutOfService => "outOfService",
            ReturnStartDiagnostic::UnableToComply => "unableToComply",
            ReturnStartDiagnostic::InvalidStartTime => "invalidStartTime",
            ReturnStartDiagnostic::InvalidStopTime => "invalidStopTime",
            ReturnStartDiagnostic::MissingTimeValue => "missingTimeValue",
            ReturnStartDiagnostic::InvalidGvcId => "invalidGvcId",
        }
    }
}

impl fmt::Display for ReturnStartDiagnostic {
    fn fmt<W: fmt::Write>(&self, f: &mut fmt::Formatter<W>) -> fmt::Result {
        f.write_str(self.word())
    }
}
