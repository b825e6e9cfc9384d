// What becomes of a message.
use sle_numbers::PeerAbortDiagnostic;

/// What becomes of a message.
#[derive(Clone, Copy, Debug, PartialEq, Eq)]
pub enum Step {
    /// It is handled.
    Pass,
    /// It is a BIND, and is answered with accessDenied.
    Denied,
    /// The association is aborted: for accessDenied, protocolError or encodingError.
    Abort { diagnostic: PeerAbortDiagnostic },
}
