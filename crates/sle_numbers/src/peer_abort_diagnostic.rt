// Why an association is aborted (CCSDS 911.1-B, annex A, PeerAbortDiagnostic).
use crate::numbered::Numbered;
use std::fmt;

/// Why an association is aborted.
#[derive(Clone, Copy, Debug, PartialEq, Eq)]
pub enum PeerAbortDiagnostic {
    /// Credentials fail.
    AccessDenied = 0,
    UnexpectedResponderId = 1,
    OperationalRequirement = 2,
    /// An operation isn't allowed in the present state.
    ProtocolError = 3,
    CommunicationsFailure = 4,
    /// Octets are no PDU.
    EncodingError = 5,
    ReturnTimeout = 6,
    EndOfServiceProvisionPeriod = 7,
    /// A return is of nothing that was invoked.
    UnsolicitedInvokeId = 8,
    OtherReason = 127,
}

impl Numbered for PeerAbortDiagnostic {
    ghost use Rattle.sle_numbers.specs.PeerAbortDiagnostic.{number_of, word_of, all, each};

    ghost number_of = { number_of };

    ghost word_of = { word_of };

    ghost all = { all };

    ghost each = { each };

    fn values() -> &'static [PeerAbortDiagnostic] {
        &[
            PeerAbortDiagnostic::AccessDenied,
            PeerAbortDiagnostic::UnexpectedResponderId,
            PeerAbortDiagnostic::OperationalRequirement,
            PeerAbortDiagnostic::ProtocolError,
            PeerAbortDiagnostic::CommunicationsFailure,
            PeerAbortDiagnostic::EncodingError,
            PeerAbortDiagnostic::ReturnTimeout,
            PeerAbortDiagnostic::EndOfServiceProvisionPeriod,
            PeerAbortDiagnostic::UnsolicitedInvokeId,
            PeerAbortDiagnostic::OtherReason,
        ]
    }

    fn number(self) -> u8 {
        self as u8
    }

    fn word(self) -> &'static str {
        match self {
            PeerAbortDiagnostic::AccessDenied => "accessDenied",
            PeerAbortDiagnostic::UnexpectedResponderId => "unexpectedResponderId",
            PeerAbortDiagnostic::OperationalRequirement => "operationalRequirement",
            PeerAbortDiagnostic::ProtocolError => "protocolError",
            PeerAbortDiagnostic::CommunicationsFailure => "communicationsFailure",
            PeerAbortDiagnostic::EncodingError => "encodingError",
            PeerAbortDiagnostic::ReturnTimeout => "returnTimeout",
            PeerAbortDiagnostic::EndOfServiceProvisionPeriod => "endOfServiceProvisionPeriod",
            PeerAbortDiagnostic::UnsolicitedInvokeId => "unsolicitedInvokeId",
            PeerAbortDiagnostic::OtherReason => "otherReason",
        }
    }
}

impl fmt::Display for PeerAbortDiagnostic {
    fn fmt<W: fmt::Write>(&self, f: &mut fmt::Formatter<W>) -> fmt::Result {
        f.write_str(self.word())
    }
}
