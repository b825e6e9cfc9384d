// What a running station shows of itself at one moment: plain values.
//
// `Snapshot` is read from a board on which the station's adapters count. Health, the page, the numbers
// and the metrics are functions of it alone. It has no contract: what a number is, its field says.
//
// A snapshot costs the memory of its texts.
#![tactic(auto)]

mod door_now;
mod snapshot;

pub use door_now::{DoorNow, DoorState, EndNow};
pub use snapshot::{AntennaNow, ArchiveNow, RecorderNow, Snapshot, SourceNow};
