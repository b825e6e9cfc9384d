// Runs of a station's workers on threads, over doubles, and a plain program of one thread beside
// them: what tests of the workers share.
//
// `Outside::run` runs a station over what it meets outside, with the recorder, the antenna's worker
// and each door on a thread of its own, and `Ran` is what came of it. The history of a closed lock
// has no octets, so `is_of_one_thread` looks for an order of its calls anew: a book with no lock
// and a session for each user make them one after the other, until what each link and the antenna
// were handed has come out again, octet by octet.
#![tactic(auto)]

mod outside;
mod plain;
mod ran;
pub mod users;

pub use outside::{Fails, NONE, Outside, TURNS};
pub use plain::is_of_one_thread;
pub use ran::Ran;
