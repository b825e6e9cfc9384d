// Doubles of all that a station meets outside, for tests of its workers on threads: a link, a disk,
// a source of entries and an antenna over those in memory.
//
// Each may yield at random, by numbers that a seed gives (`Pace`), so that runs of one input take
// turns in many orders. A sync of the disk and a send of the antenna may be held (`Hold`) until a
// link was handed an answer meanwhile; what comes to a link may wait for that (`Stage`). Which calls
// fail is said of what is inside each. No double waits for ever: a wait ends after so many looks,
// and a link closes after so many polls. None of them tells, so that contracts say nothing of
// octets; what is inside each tells a test.
#![tactic(auto)]

mod hold;
mod pace;
mod paced_antenna;
mod paced_disk;
mod paced_frames;
mod paced_link;
mod stage;

pub use hold::Hold;
pub use pace::Pace;
pub use paced_antenna::PacedAntenna;
pub use paced_disk::PacedDisk;
pub use paced_frames::PacedFrames;
pub use paced_link::PacedLink;
pub use stage::Stage;
