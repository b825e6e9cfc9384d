// The station's book under its lock, in small: two workers on two threads, each with jobs of its
// own.
//
// A job is a publishing or what a door asks, and is done in one turn, which is committed with the
// event of the call. What happened is named by an `Event`, which keeps no octets of what was handed
// in. Once both threads have ended and their passes were joined, the lock is closed: the history is
// legal, the book stands for it, and it is made up of the workers' own events, each once. So what
// each worker was told is what one thread is told that makes the history's calls one after the
// other.
#![tactic(auto)]

mod job;
mod leaving;
mod turn;
mod work;

pub use job::{Job, Outcome};
pub use leaving::{leave, told_in_turn};
pub use turn::do_job;
pub use work::{Plan, Shared, run_two};
