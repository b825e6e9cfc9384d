// A rehearsal: a pass of frames that is made from a number, its archive, and what a START over all
// of it hands over.
//
// The START is one of the desk, over the index of the archive. The archive lies in memory and on no
// disk. A frame's octets are made once and copied once, into the message that hands the frame over.
#![tactic(auto)]

mod archive;
mod frames;
pub mod laws;
mod report;
mod start;
mod tally;

pub use octet_core::Memory;
pub use report::{MOST_FRAMES, rehearse};
