// Which messages carry credentials.

/// Which messages between a peer and this station carry credentials (CCSDS 913.1-B, annex on
/// authentication).
#[derive(Clone, Copy, Debug, PartialEq, Eq)]
pub enum Level {
    /// None.
    Nothing,
    /// BIND and its return.
    Bind,
    /// All.
    All,
}
