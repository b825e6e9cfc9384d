// Why a THROW-EVENT is refused (CCSDS 912.1-B, annex A, DiagnosticCltuThrowEvent).
use sle_numbers::Numbered;
use std::fmt;

/// Why a THROW-EVENT is refused: a reason of its own.
#[derive(Clone, Copy, Debug, PartialEq, Eq)]
pub enum CltuThrowEventDiagnostic {
    OperationNotSupported = 0,
    /// The event's invocation isn't the next one.
    EventInvocIdOutOfSequence = 1,
    NoSuchEvent = 2,
}

impl Numbered for CltuThrowEventDiagnostic {
    ghost use Rattle.fcltu_numbers.specs.CltuThrowEventDiagnostic.{number_of, word_of, all, each};

    ghost number_of = { number_of };

    ghost word_of = { word_of };

    ghost all = { all };

    ghost each = { each };

    fn values() -> &'static [CltuThrowEventDiagnostic] {
        &[
            CltuThrowEventDiagnostic::OperationNotSupported,
            CltuThrowEventDiagnostic::EventInvocIdOutOfSequence,
            CltuThrowEventDiagnostic::NoSuchEvent,
        ]
    }

    fn number(self) -> u8 {
        self as u8
    }

    fn word(self) -> &'static str {
        match self {
            CltuThrowEventDiagnostic::OperationNotSupported => "operationNotSupported",
            CltuThrowEventDiagnostic::EventInvocIdOutOfSequence => "eventInvocIdOutOfSequence",
            CltuThrowEventDiagnostic::NoSuchEvent => "noSuchEvent",
        }
    }
}

impl fmt::Display for CltuThrowEventDiagnostic {
    fn fmt<W: fmt::Write>(&self, f: &mut fmt::Formatter<W>) -> fmt::Result {
        f.write_str(self.word())
    }
}
