// How a session ended.

use isp1_tml::TmlFault;
use sle_numbers::PeerAbortDiagnostic;

/// How a session ended.
#[derive(Clone, Copy, Debug)]
pub enum Ended {
    /// The return of an UNBIND was taken whole.
    Unbound,
    /// The peer closed the connection, and no whole message of its was left.
    PeerClosed,
    /// The return of a BIND with accessDenied was taken whole.
    Denied,
    /// The context's numbers are out of the site's range.
    Range {
        /// The heartbeat interval, in seconds.
        interval: u16,
        /// The dead factor.
        factor: u16,
    },
    /// The octets that arrived are no messages of the transport.
    Broken(TmlFault),
    /// This provider aborted, by closing the connection.
    Aborted {
        /// Why: accessDenied, protocolError, communicationsFailure, encodingError or otherReason.
        diagnostic: PeerAbortDiagnostic,
    },
    /// The peer aborted.
    PeerAborted {
        /// Why, from 0 to 127, also where the standard's table doesn't have the number.
        diagnostic: u8,
    },
}
