// The seats of a station's workers: the passes with which they take their turns.
//
// `split_off` and `seat_all` give each worker turns of one pass, before the first worker starts.
// `join_crew` puts all passes together again once the last one has returned, and `close` closes the
// lock. Contracts see which turns a pass has, that a fresh one has done nothing, and that the closed
// pass has each worker's own events as a list of its own, which make up the history.
//
// Each call costs a few steps for each door.
#![tactic(auto)]

mod crew;
mod report;
mod seat;

pub use crew::{close, gather, join_crew, seat_all, split_off};
pub use report::DoorReport;
pub use seat::DoorSeat;
