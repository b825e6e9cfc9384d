// What a station's workers call, with its calls counted on a board.
//
// Each wrapper does what the wrapped object does, and has a board count it: its contract is the
// object's, and a worker that calls one needs no change. Without a board nothing is counted. A call
// costs some writes to memory besides.
#![tactic(auto)]

mod counted_antenna;
mod counted_disk;
mod counted_frames;
mod counted_time;

pub use counted_antenna::CountedAntenna;
pub use counted_disk::CountedDisk;
pub use counted_frames::CountedFrames;
pub use counted_time::CountedTime;
