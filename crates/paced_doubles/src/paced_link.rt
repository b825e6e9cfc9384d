// A link to which pieces come in due time, and which rests and stalls.
ghost use Rattle.std.specs.Prelude.{None};

use crate::{Pace, Stage};
use link_model::{Link, MemoryLink, Poll};
use octet_core::{Memory, Octets, Offer};
use std::alloc::Global;

// How many polls a link has before it closes.
const MOST_POLLS: u64 = 2_000_000;

// When a piece is due.
#[derive(Clone, Copy)]
struct Cue {
    // How many blocks were taken before.
    taken: u64,
    // How far the doubles have come.
    stage: u64,
}

/// A link in memory to which each piece comes once so many blocks were taken and a stage was
/// reached. It yields at random, and then some polls hear nothing and some offers stall. After two
/// million polls its peer closes. It doesn't tell.
#[derive(Drop)]
pub struct PacedLink {
    pace: Pace,
    stage: Stage,
    cues: Vec<Cue>,
    given: usize,
    taken: u64,
    polls: u64,
    // What the next block that is taken reaches.
    reaches: u64,
    link: MemoryLink,
}

impl PacedLink {
    /// A link to which nothing came yet, and whose calls of this list fail: the polls at which a
    /// piece was due, and the offers.
    pub fn new(alloc: Global, pace: Pace, stage: Stage, failing_calls: Vec<u64>) -> PacedLink {
        PacedLink {
            pace,
            stage,
            cues: Vec::new(alloc),
            given: 0,
            taken: 0,
            polls: 0,
            reaches: Stage::CALM,
            link: MemoryLink::new(alloc, failing_calls),
        }
    }

    /// A piece comes, behind those that came, once so many blocks were taken and this stage was
    /// reached. Where a stage was waited for, the next block that is taken reaches the one behind
    /// it.
    pub fn arrive(&mut self, taken: u64, stage: u64, piece: Octets) -> Result<(), Memory> {
        self.cues.push(Cue { taken, stage })?;
        self.link.arrive(piece)
    }

    /// The peer closes, behind all that came, once so many blocks were taken and this stage was
    /// reached.
    pub fn close(&mut self, taken: u64, stage: u64) -> Result<(), Memory> {
        self.cues.push(Cue { taken, stage })?;
        self.link.shut();
        Ok(())
    }

    /// The link inside, which tells what was heard and handed over.
    pub fn link(&self) -> &MemoryLink {
        &self.link
    }

    // The next piece or the close, if it is due.
    fn due(&self) -> Option<Cue> {
        let cue = self.cues.get(self.given)?;
        (self.taken >= cue.taken && self.stage.has_reached(cue.stage)).then_some(*cue)
    }
}

impl Link for PacedLink {
    ghost calls = { λ _. None };

    ghost faults = { λ paced. paced.link.faults };

    ghost stalls = { λ paced. paced.link.stalls };

    fn poll(&mut self, into: &mut [u8]) -> Poll {
        self.polls = self.polls.saturating_add(1);
        if self.polls > MOST_POLLS {
            return Poll::Closed;
        }
        if self.pace.rests() {
            return Poll::Nothing;
        }
        let Some(cue) = self.due() else {
            return Poll::Nothing;
        };
        self.given = self.given.saturating_add(1);
        if cue.stage > Stage::CALM {
            self.reaches = cue.stage.saturating_add(1);
        }
        self.link.poll(into)
    }

    fn offer(&mut self, octets: &[u8]) -> Offer {
        self.link.stall(u64::from(self.pace.rests()));
        let answer = self.link.offer(octets);
        if answer == Offer::Whole {
            self.taken = self.taken.saturating_add(1);
            self.stage.reach(self.reaches);
        }
        answer
    }
}
