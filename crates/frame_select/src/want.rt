// What is wanted of a look.

use crate::selection::Selection;

/// What a session wants of a look at the archive.
#[derive(Clone, Copy, Debug, PartialEq, Eq)]
pub enum Want {
    /// Nothing.
    Nothing,
    /// How many entries there are.
    Front,
    /// The next picked entries.
    Items {
        selection: Selection,
        /// The place from which on they are wanted.
        place: u64,
        /// The place of the last frame that was handed over or is held.
        since: Option<u64>,
        /// How many are wanted.
        room: u32,
        /// No further one is wanted once the frames given have so many octets.
        octets: u32,
    },
}
