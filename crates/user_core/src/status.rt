// How a user ends.

/// How a user ended.
#[derive(Clone, Copy, Debug, PartialEq, Eq)]
pub enum Status {
    /// UNBIND was returned; the input of one who only reads came to its end.
    Done,
    /// An invocation was refused.
    Refused,
    /// A message is bad.
    BadMessage,
    /// The peer has closed, or aborted.
    PeerEnded,
    /// Memory was refused.
    OutOfMemory,
}
