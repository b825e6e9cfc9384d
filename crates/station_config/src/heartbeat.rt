// The heartbeat intervals and dead factors that a context message may have.

/// The intervals in seconds and the dead factors that a context message may have.
#[derive(Clone, Copy, Debug, PartialEq, Eq)]
pub(crate) struct Heartbeat {
    /// At least 1.
    pub(crate) interval_from: u16,
    /// At most 3,600.
    pub(crate) interval_to: u16,
    /// At least 2.
    pub(crate) factor_from: u16,
    /// At most 100.
    pub(crate) factor_to: u16,
}
