// An index of the archive: which entry a START picks next, how many frames were lost between two of
// them, and what a look gives.
//
// An index keeps sorted lists. Each frame, each seal and each notice (a loss of synchronisation or a
// change of the production status) has a row: its place, its moment, and the frames lost up to it.
// Good frames, erred frames, and the good frames of a virtual or a master channel are lists of
// numbers into the frames' rows. A row takes 32 octets, a number 8, so a good frame of a channel
// takes 56; the lists grow as `Vec` does. No octets of frames are kept.
//
// A walk finds where the picked entries begin by six binary searches, and then goes from one to the
// next. With b the binary digits of the number of entries, `walk` takes at most 8 b + 2 steps,
// `onward` 4, `after` 8 b + 6, `lost_between` 2 b, and a look that gives n items 6 n + 8 b + 8. A
// step is the reading of one value of a shelf; the look-up of a channel's list in the ordered map is
// none. `add` and `go_back` take constant time for each entry, besides such look-ups. Only `add` and
// a look's list of items take memory.
#![tactic(auto)]

mod channels;
mod cursor;
mod index;
mod look;
mod mark;
mod parts;
mod row;
mod shelf;
mod steps;
mod totals;
mod walk;
mod walking;

pub use channels::Key;
pub use index::Index;
pub use mark::Mark;
pub use parts::Parts;
pub use row::Row;
pub use shelf::Shelf;
pub use steps::Steps;
pub use walk::{Found, Walk};
