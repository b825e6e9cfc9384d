// What a disk in memory logs.

use crate::{Call, Pick};

/// An event in the log of a disk in memory.
#[derive(Debug, Drop)]
pub enum Event {
    /// This call took effect.
    Made(Call),
    /// The disk was restarted after a stop of this pick: from here on it holds what the stop left.
    Restarted(Pick),
}
