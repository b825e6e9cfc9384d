// Why a user ends an association (CCSDS 911.1-B, annex A, UnbindReason).
use crate::numbered::Numbered;
use std::fmt;

/// Why a user ends an association.
#[derive(Clone, Copy, Debug, PartialEq, Eq)]
pub enum UnbindReason {
    /// The user needs the instance no more.
    End = 0,
    /// The user will bind again.
    Suspend = 1,
    /// The user doesn't support the version that the return of BIND gave.
    VersionNotSupported = 2,
    Other = 127,
}

impl Numbered for UnbindReason {
    ghost use Rattle.sle_numbers.specs.UnbindReason.{number_of, word_of, all, each};

    ghost number_of = { number_of };

    ghost word_of = { word_of };

    ghost all = { all };

    ghost each = { each };

    fn values() -> &'static [UnbindReason] {
        &[
            UnbindReason::End,
            UnbindReason::Suspend,
            UnbindReason::VersionNotSupported,
            UnbindReason::Other,
        ]
    }

    fn number(self) -> u8 {
        self as u8
    }

    fn word(self) -> &'static str {
        match self {
            UnbindReason::End => "end",
            UnbindReason::Suspend => "suspend",
            UnbindReason::VersionNotSupported => "versionNotSupported",
            UnbindReason::Other => "other",
        }
    }
}

impl fmt::Display for UnbindReason {
    fn fmt<W: fmt::Write>(&self, f: &mut fmt::Formatter<W>) -> fmt::Result {
        f.write_str(self.word())
    }
}
