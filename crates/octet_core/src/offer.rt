// What a link answers to octets that it is offered.

/// What a link answers to a block of octets that it was offered.
#[derive(Clone, Copy, Debug, PartialEq, Eq)]
pub enum Offer {
    /// It took all of the octets.
    Whole,
    /// It took none of them, and may take them later.
    Stalled,
    /// It failed.
    Failed,
}
