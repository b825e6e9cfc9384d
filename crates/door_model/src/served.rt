// How the serving of a link ended.

use isp1_tml::TmlFault;
use sle_numbers::PeerAbortDiagnostic;

/// How the serving of a link ended, for the log of who gave the link.
#[derive(Clone, Copy, Debug, PartialEq, Eq)]
pub enum Served {
    /// The user unbound, and its return was taken whole.
    Unbound,
    /// The peer closed the connection.
    PeerClosed,
    /// The BIND was denied, and its return was taken whole.
    Denied,
    /// The context's numbers are out of the site's range.
    Range {
        /// The heartbeat interval, in seconds.
        interval: u16,
        /// The dead factor.
        factor: u16,
    },
    /// The octets that arrived are no messages of the transport.
    Broken(TmlFault),
    /// The provider aborted.
    Aborted {
        /// Why.
        diagnostic: PeerAbortDiagnostic,
    },
    /// The peer aborted.
    PeerAborted {
        /// Why, by the diagnostics of PEER-ABORT (CCSDS 911.1-B, annex A), or a number outside them.
        diagnostic: u8,
    },
    /// A call of the link failed.
    LinkFault,
    /// The turns at the station's lock are spent.
    TurnsSpent,
    /// Memory was refused.
    Memory,
}
