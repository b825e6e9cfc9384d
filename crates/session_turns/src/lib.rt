// A connection on a worker's thread: the rounds of its session over the station's lock, one turn
// each.
//
// `serve` makes rounds until the session ends, its link fails, two turns are left, or memory is
// wanted. A round is `listen`, one turn with `step`, and `speak`: the lock is held for the step
// alone. Behind them one turn quits the door. `Serves` in `specs/Serving.antt` says what came of
// it.
#![tactic(auto)]

mod asked;
mod connection;
mod rounds;
mod serve_fault;
mod step;

pub use connection::serve;
pub use serve_fault::ServeFault;
