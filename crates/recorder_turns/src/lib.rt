// The recorder on a worker's thread: what a source gives is stored off the station's lock, and what
// the archive has acknowledged is published in turns.
//
// `recording` makes steps until the source's end. A step is `record_step` of `recorder`, with no
// turn open, and then one turn of the lock that publishes its answer. So what the book publishes
// was acknowledged before, and the lock is never held while a disk works. `Records` in
// `specs/Recording.antt` says what came of it.
#![tactic(auto)]

mod recording_fault;
mod step;
mod tally;
mod working;

pub use recording_fault::RecordingFault;
pub use tally::Tally;
pub use working::recording;
