// The event of a turn.

use crate::account::Opening;
use crate::order::{Order, Reply};
use turn_lock::HistoryEvent;

/// One call of the account: who made it, at which reading of the clock and with which order, and
/// what it was then and what came of it.
pub struct Booking {
    pub clerk: u32,
    pub reading: u64,
    pub order: Order,
    /// The latest reading of all calls so far.
    pub moment: u64,
    pub reply: Reply,
}

impl HistoryEvent for Booking {
    type Origin = Opening;
}
