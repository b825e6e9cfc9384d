// What is in the air.

use cds_time::Cds;

// A CLTU whose radiation goes on.
#[derive(Clone, Copy, Debug, PartialEq, Eq)]
pub(crate) struct InAir {
    // The number of its run.
    pub run: u64,
    pub id: u32,
    // When its radiation began.
    pub began: Cds,
    // The least time to the next one's beginning, in microseconds.
    pub radiation_delay: u32,
    // Whether its end is to be told.
    pub wanted: bool,
}
