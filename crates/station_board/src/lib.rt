// What a running station's adapters count, and what of it is read at one moment.
//
// All adapters of a station share a `Board`. Each writes its own counts: a door and its links by a
// `DoorPen`, a clock that a worker reads in each turn by a `TurnPen`, the others by the board itself.
// Who serves the status page reads all of them as a `Snapshot`. No one waits for another. No clause
// says what a count holds: that is what the adapters wrote, and is tested.
//
// A count has one writer. To count costs a read and a write of memory. A snapshot costs a read for
// each count, and its texts.
#![tactic(auto)]

mod archive_board;
mod board;
mod counts;
mod door_board;
mod door_pen;
mod source_board;
mod turn_pen;

pub use board::{Beginning, Board};
pub use door_pen::DoorPen;
pub use source_board::EntryKind;
pub use turn_pen::TurnPen;
