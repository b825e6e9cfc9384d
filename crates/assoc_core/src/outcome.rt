// What a message led to.

/// What a message that passed led to.
#[derive(Clone, Copy, Debug, PartialEq, Eq)]
pub enum Outcome {
    /// A context was taken.
    Context,
    /// A BIND was answered positively: the peer's place in the site, and whether the instance is
    /// one of a forward service.
    Bound { peer: u32, forward: bool },
    /// A BIND was answered with accessDenied.
    Denied,
    /// A START was answered positively.
    Started,
    /// A STOP was answered positively.
    Stopped,
    /// An UNBIND was answered.
    Unbound,
    /// Anything else, which leaves the state.
    Kept,
}
