// How a connection ends.

/// How a connection ended, as its line says it.
#[derive(Clone, Copy, Debug, PartialEq, Eq)]
pub enum EndWord {
    /// `unbound`: the return of UNBIND was taken whole.
    Unbound,
    /// `closed`: the peer closed.
    Closed,
    /// `denied`: the return of a denied BIND was taken whole.
    Denied,
    /// `range`: the context's numbers are out of the site's range.
    Range,
    /// `broken N`: the stream has the transport's fault N.
    Broken(u8),
    /// `aborted D`: the provider aborted with a diagnostic.
    Aborted(u8),
    /// `peer-aborted D`: the peer aborted with a diagnostic.
    PeerAborted(u8),
    /// `fault`: a poll or an offer failed.
    Fault,
}
