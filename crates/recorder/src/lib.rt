// The recorder: entries come in from a source, are stored, and are told as what is to be published.
//
// A `FrameSource` gives the entries of an archive one by one. It has a count of faults: it answers
// `Failed` exactly where it makes that count go up by one. A source that tells has one list of its
// answers, and may stop telling. `MemoryFrames` is one in memory, with a list of failing calls.
//
// `record_step` polls a source until 256 entries came or an answer is none, and stores what came as
// one batch. It answers what the archive has acknowledged with it, what was dropped and why, and
// whether the source's end came (`Recorded`), or why it didn't end well (`RecordFault`).
//
// A poll's cost grows with the calls that are listed to fail, and with nothing else. A step costs
// a poll and an offer for each entry, one store, and where that fails a reopen and a second store
// perhaps. No octets are copied but into the batch.
#![tactic(auto)]

mod frame_source;
pub mod laws;
mod memory_frames;
mod record_fault;
mod recorded;
mod step;

pub use frame_source::{Feed, FrameSource};
pub use memory_frames::MemoryFrames;
pub use record_fault::RecordFault;
pub use recorded::Recorded;
pub use step::record_step;
