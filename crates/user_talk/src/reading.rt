// What a turn reads of its surroundings.

/// What a turn reads of its surroundings.
#[derive(Clone, Copy, Debug, PartialEq, Eq)]
pub struct Reading {
    /// The moment, in picoseconds since 1958-01-01.
    pub now: u128,
    /// True if the user is asked to end.
    pub asked: bool,
}
