// What a station of a script stores: its archive on a disk in memory, the entries that are published,
// and the order that stands for the disk.
//
// In the definitions a store is lists and numbers (`specs/Store.antt`), and what a line does to it a
// function that gives an answer (`specs/Answer.antt`): what is said, what was given to stores, how
// the line ended, and the next store. Of an entry it is `offer` in `specs/Entries.antt`, of a power
// failure `fails_now` in `specs/Power.antt`. The text of what is said is a function of it
// (`specs/Said.antt`), and `put_line` writes such lines. In code a store is a `Recorder`, whose disk
// has the images that `specs/IsHeld.antt` and `specs/Stopped.antt` speak of.
//
// An entry is stored by a step of the recorder (`record_step` of `recorder`), which is told an order
// that hits it.
//
// An entry's line costs one batch of the archive, and a power failure a reading of the whole file.
#![tactic(auto)]

mod one_entry;
mod order;
mod outcome;
mod put;
mod refusal;
mod script_recorder;
mod shared;
mod step_done;
mod stop;
mod storing;

pub use order::{Order, Strike, pick_of};
pub use outcome::Outcome;
pub use put::{put_line, put_sent};
pub use refusal::Refusal;
pub use script_recorder::Recorder;
pub use shared::{push, share};
pub use step_done::StepDone;
pub use stop::Stop;
