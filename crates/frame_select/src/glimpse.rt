// What a look gives.

use crate::items::Items;
use crate::locks::Locks;
use sle_numbers::ReturnProductionStatus;

/// What a look at the archive gives.
#[derive(Debug, Drop)]
pub struct Glimpse {
    /// How many entries are published.
    pub front: u64,
    /// The wanted items, each frame with its continuity.
    pub items: Items,
    /// The place behind the last of them, or the wanted place where there is none.
    pub next: u64,
    /// Whether a picked entry remains.
    pub more: bool,
    /// Whether the stop is known and closed: nothing more will be picked.
    pub closed: bool,
    /// The lock statuses of a status report.
    pub locks: Locks,
    /// The production status.
    pub production: ReturnProductionStatus,
}
