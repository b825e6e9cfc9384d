// What a round's `listen` came to.

/// What a round's `listen` came to.
#[derive(Clone, Copy)]
pub enum Arrival {
    /// A waiting block stalled, and the link wasn't polled.
    Blocked,
    /// Nothing arrived, or the link wasn't polled.
    Nothing,
    /// Octets arrived.
    Octets,
    /// The peer has closed.
    Closed,
}
