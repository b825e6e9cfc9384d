// A walk over what a selection picks.

use frame_select::Filter;

/// How far a walk has come. It holds for the index that it was begun on, as long as that stays.
#[derive(Clone, Copy, Debug)]
pub struct Walk {
    pub(crate) filter: Filter,
    pub(crate) stop: Option<u128>,
    // The next row among those that the filter lets through.
    pub(crate) frame: u64,
    // The next row of the notices, and the last place at which one is told.
    pub(crate) notice: u64,
    pub(crate) until: u64,
    // How many frames were lost up to and including the frame before.
    pub(crate) lost: Option<u64>,
}

/// A picked entry: its place, and how many frames were lost since the frame before.
#[derive(Clone, Copy, Debug, PartialEq, Eq)]
pub struct Found {
    pub place: u64,
    pub lost: u32,
}
