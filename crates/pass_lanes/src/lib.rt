// The lanes of a pass: of its lines and times, of the frames of each channel, of locks, production
// and seals, of each connection, of CLTUs from the queue to their radiation, and of failures.
//
// `Lanes` takes what each line of a script led to, column by column. A lane is there once it was
// given a mark. `groups` lends all of them, as a picture draws them. Each call costs what it puts,
// but for frames, which find their channel among those that came, and for what discards CLTUs.
#![tactic(auto)]

mod cltu;
mod cltus;
mod frames;
mod label;
mod lanes;
mod note;
mod place;
mod times;

pub use cltu::{Cltu, Fate};
pub use lanes::Lanes;
pub use note::Note;
pub use place::Place;
