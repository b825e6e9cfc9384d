// Why a SCHEDULE-STATUS-REPORT is refused (CCSDS 911.1-B, annex A,
// DiagnosticScheduleStatusReport).
use crate::numbered::Numbered;
use std::fmt;

/// Why a SCHEDULE-STATUS-REPORT is refused: a reason of its own.
#[derive(Clone, Copy, Debug, PartialEq, Eq)]
pub enum ScheduleDiagnostic {
    NotSupportedInThisDeliveryMode = 0,
    /// No cycle is running that could be stopped.
    AlreadyStopped = 1,
    InvalidReportingCycle = 2,
}

impl Numbered for ScheduleDiagnostic {
    ghost use Rattle.sle_numbers.specs.ScheduleDiagnostic.{number_of, word_of, all, each};

    ghost number_of = { number_of };

    ghost word_of = { word_of };

    ghost all = { all };

    ghost each = { each };

    fn values() -> &'static [ScheduleDiagnostic] {
        &[
            ScheduleDiagnostic::NotSupportedInThisDeliveryMode,
            ScheduleDiagnostic::AlreadyStopped,
            ScheduleDiagnostic::InvalidReportingCycle,
        ]
    }

    fn number(self) -> u8 {
        self as u8
    }

    fn word(self) -> &'static str {
        match self {
            ScheduleDiagnostic::NotSupportedInThisDeliveryMode => "notSupportedInThisDeliveryMode",
            ScheduleDiagnostic::AlreadyStopped => "alreadyStopped",
            ScheduleDiagnostic::InvalidReportingCycle => "invalidReportingCycle",
        }
    }
}

impl fmt::Display for ScheduleDiagnostic {
    fn fmt<W: fmt::Write>(&self, f: &mut fmt::Formatter<W>) -> fmt::Result {
        f.write_str(self.word())
    }
}
