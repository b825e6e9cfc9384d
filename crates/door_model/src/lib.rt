// The door of a station: what gives the links of users, one after the other, and takes them back.
//
// A `Door` is asked for the next link, and told how the serving of each ended (`Served`). It has a
// count of faults: `next_link` answers `Failed` exactly where it makes that count go up by one. A
// door that shows has one record of its last answer and of the links that were given back, each
// with its calls as they stood then (`specs/Shown.antt`). Before it is given, no call is made of a
// link.
//
// `MemoryDoor` is a door in memory, over whatever links: it gives those that came, fails at the
// calls of a list, and keeps what was given back.
//
// No call's cost grows with anything but the calls of the door that are listed to fail.
#![tactic(auto)]

mod answer;
mod door;
mod memory_door;
mod returned;
mod served;

pub use answer::Answer;
pub use door::Door;
pub use memory_door::MemoryDoor;
pub use returned::Returned;
pub use served::Served;
