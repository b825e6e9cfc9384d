// What a door's worker reports.

/// What a door's worker did, and why it ended where that is no end of its own.
#[derive(Clone, Copy, Debug, PartialEq, Eq)]
pub struct DoorReport {
    /// How many links the door gave.
    pub links: u64,
    /// Whether the turns were spent.
    pub spent: bool,
    /// Whether the door failed.
    pub failed: bool,
    /// Whether memory was wanted and refused.
    pub memory: bool,
}

impl DoorReport {
    /// Nothing was done yet.
    pub fn none() -> DoorReport {
        DoorReport {
            links: 0,
            spent: false,
            failed: false,
            memory: false,
        }
    }
}
