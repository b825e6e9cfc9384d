// A source of entries which rests.
ghost use Rattle.std.specs.Prelude.{None};

use crate::Pace;
use recorder::{Feed, FrameSource, MemoryFrames};

/// A source in memory which yields at random, and to which at some calls nothing came yet. It
/// doesn't tell.
#[derive(Drop)]
pub struct PacedFrames {
    pub pace: Pace,
    pub frames: MemoryFrames,
}

impl FrameSource for PacedFrames {
    ghost answers = { λ _. None };

    ghost faults = { λ paced. paced.frames.faults };

    fn next(&mut self) -> Feed {
        if self.pace.rests() {
            return Feed::NotYet;
        }
        self.frames.next()
    }
}
