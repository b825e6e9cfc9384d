// How the owner of a disk in memory steers it.

use octet_core::FailingCalls;

/// What a stop leaves of each write since the last good sync, the stopped one included.
#[derive(Clone, Copy, Debug, PartialEq, Eq)]
pub enum Pick {
    /// The old octets and the old size.
    Old,
    /// All new octets.
    New,
    /// The first half of the new octets, rounded down, and 5A in the place of each other one.
    Torn,
}

/// A stop that is to come.
#[derive(Clone, Copy, Debug, PartialEq, Eq)]
pub struct Stop {
    /// At which counted call from now on, from 1. A stop at 0 comes at once.
    pub calls: u64,
    /// What it leaves.
    pub pick: Pick,
}

/// What is to happen to a disk in memory, in the place of all orders before.
#[derive(Debug, Drop)]
pub struct Orders {
    /// Which counted calls fail.
    pub failing: FailingCalls,
    /// The stop that is to come, or none.
    pub stop: Option<Stop>,
}
