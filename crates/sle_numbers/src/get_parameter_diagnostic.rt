// Why a GET-PARAMETER is refused (CCSDS 911.1-B, annex A).
use crate::numbered::Numbered;
use std::fmt;

/// Why a GET-PARAMETER is refused: a reason of its own.
#[derive(Clone, Copy, Debug, PartialEq, Eq)]
pub enum GetParameterDiagnostic {
    /// The service has no parameter of this name.
    UnknownParameter = 0,
}

impl Numbered for GetParameterDiagnostic {
    ghost use Rattle.sle_numbers.specs.GetParameterDiagnostic.{number_of, word_of, all, each};

    ghost number_of = { number_of };

    ghost word_of = { word_of };

    ghost all = { all };

    ghost each = { each };

    fn values() -> &'static [GetParameterDiagnostic] {
        &[GetParameterDiagnostic::UnknownParameter]
    }

    fn number(self) -> u8 {
        self as u8
    }

    fn word(self) -> &'static str {
        match self {
            GetParameterDiagnostic::UnknownParameter => "unknownParameter",
        }
    }
}

impl fmt::Display for GetParameterDiagnostic {
    fn fmt<W: fmt::Write>(&self, f: &mut fmt::Formatter<W>) -> fmt::Result {
        f.write_str(self.word())
    }
}
