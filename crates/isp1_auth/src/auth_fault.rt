use thiserror::Error;

/// Why credentials are refused.
#[derive(Clone, Copy, Debug, PartialEq, Eq, Error)]
pub enum AuthFault {
    /// They are unused.
    #[error("no credentials")]
    Missing,
    /// They aren't the SEQUENCE of CCSDS 913.1-B, or its time names no moment.
    #[error("credentials out of form")]
    Malformed,
    /// Their time is further from now than is allowed, either way; how far, in picoseconds.
    #[error("credentials {difference} picoseconds from now")]
    TooOld { difference: u128 },
    /// They aren't protected by the digest that this sender's name and password give.
    #[error("credentials with a wrong digest")]
    WrongDigest,
}
