// Why a BIND is refused (CCSDS 911.1-B, annex A, BindDiagnostic).
use crate::numbered::Numbered;
use std::fmt;

/// Why a BIND is refused.
#[derive(Clone, Copy, Debug, PartialEq, Eq)]
pub enum BindDiagnostic {
    /// The initiator isn't known, or its credentials fail.
    AccessDenied = 0,
    ServiceTypeNotSupported = 1,
    VersionNotSupported = 2,
    NoSuchServiceInstance = 3,
    /// The instance is bound to another user.
    AlreadyBound = 4,
    /// The service instance is another initiator's.
    SiNotAccessibleToThisInitiator = 5,
    /// The instance is one of another service.
    InconsistentServiceType = 6,
    /// The instance's time of provision is over, or hasn't begun.
    InvalidTime = 7,
    OutOfService = 8,
    OtherReason = 127,
}

impl Numbered for BindDiagnostic {
    ghost use Rattle.sle_numbers.specs.BindDiagnostic.{number_of, word_of, all, each};

    ghost number_of = { number_of };

    ghost word_of = { word_of };

    ghost all = { all };

    ghost each = { each };

    fn values() -> &'static [BindDiagnostic] {
        &[
            BindDiagnostic::AccessDenied,
            BindDiagnostic::ServiceTypeNotSupported,
            BindDiagnostic::VersionNotSupported,
            BindDiagnostic::NoSuchServiceInstance,
            BindDiagnostic::AlreadyBound,
            BindDiagnostic::SiNotAccessibleToThisInitiator,
            BindDiagnostic::InconsistentServiceType,
            BindDiagnostic::InvalidTime,
            BindDiagnostic::OutOfService,
            BindDiagnostic::OtherReason,
        ]
    }

    fn number(self) -> u8 {
        self as u8
    }

    fn word(self) -> &'static str {
        match self {
            BindDiagnostic::AccessDenied => "accessDenied",
            BindDiagnostic::ServiceTypeNotSupported => "serviceTypeNotSupported",
            BindDiagnostic::VersionNotSupported => "versionNotSupported",
            BindDiagnostic::NoSuchServiceInstance => "noSuchServiceInstance",
            BindDiagnostic::AlreadyBound => "alreadyBound",
            BindDiagnostic::SiNotAccessibleToThisInitiator => "siNotAccessibleToThisInitiator",
            BindDiagnostic::InconsistentServiceType => "inconsistentServiceType",
            BindDiagnostic::InvalidTime => "invalidTime",
            BindDiagnostic::OutOfService => "outOfService",
            BindDiagnostic::OtherReason => "otherReason",
        }
    }
}

impl fmt::Display for BindDiagnostic {
    fn fmt<W: fmt::Write>(&self, f: &mut fmt::Formatter<W>) -> fmt::Result {
        f.write_str(self.word())
    }
}
