// The doors of a station, each on a worker's thread.
//
// `serve_door` takes links of a door one after the other, has each served by `serve` of
// `session_turns`, and gives it back with how that ended. At its end the worker tells in a turn
// that it is gone. `serve_doors` has a worker for each door, all at once. `Works` in
// `specs/Working.antt` says what a worker did, and `EachWorks` in `specs/Doors.antt` the same of
// each door with the seat at its place.
#![tactic(auto)]

mod doors;
mod served;
mod visit;
mod worker;

pub use doors::serve_doors;
pub use worker::serve_door;
