// Why an operation is refused, where the reason is common to all (CCSDS 911.1-B, annex A,
// Diagnostics).
use crate::numbered::Numbered;
use std::fmt;

/// Why an operation is refused: a reason that all operations share. STOP has these alone.
#[derive(Clone, Copy, Debug, PartialEq, Eq)]
pub enum CommonDiagnostic {
    DuplicateInvokeId = 100,
    OtherReason = 127,
}

impl Numbered for CommonDiagnostic {
    ghost use Rattle.sle_numbers.specs.CommonDiagnostic.{number_of, word_of, all, each};

    ghost number_of = { number_of };

    ghost word_of = { word_of };

    ghost all = { all };

    ghost each = { each };

    fn values() -> &'static [CommonDiagnostic] {
        &[
            CommonDiagnostic::DuplicateInvokeId,
            CommonDiagnostic::OtherReason,
        ]
    }

    fn number(self) -> u8 {
        self as u8
    }

    fn word(self) -> &'static str {
        match self {
            CommonDiagnostic::DuplicateInvokeId => "duplicateInvokeId",
            CommonDiagnostic::OtherReason => "otherReason",
        }
    }
}

impl fmt::Display for CommonDiagnostic {
    fn fmt<W: fmt::Write>(&self, f: &mut fmt::Formatter<W>) -> fmt::Result {
        f.write_str(self.word())
    }
}
