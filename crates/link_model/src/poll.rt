// What a poll answers.

/// What a link answers to a poll.
#[derive(Clone, Copy, Debug, PartialEq, Eq)]
pub enum Poll {
    /// So many octets arrived, at least one, and stand at the front of the space handed in.
    Arrived(usize),
    /// Nothing arrived.
    Nothing,
    /// The peer has closed, and nothing more will arrive.
    Closed,
    /// The poll failed, and the count of faults rose.
    Failed,
}
