// Links that wait for each other.
ghost use Rattle.std.specs.Prelude.{None};

use link_model::{Link, MemoryLink, Poll};
use octet_core::Offer;
use std::sync::atomic::{AtomicU64, Ordering};

/// The first link was polled.
pub const POLLED: u64 = 1;

/// The second link took a block.
const ANSWERED: u64 = 2;

/// Which of the two links it is.
#[derive(Clone, Copy)]
pub enum Role {
    /// Nothing arrives, and it is closed once the second link took a block.
    First,
    /// What came arrives once the first link was polled, and a close behind it, once it took a
    /// block.
    Second,
}

/// A link of one of two doors, and how far both have come. It doesn't tell.
#[derive(Drop)]
pub struct Staged<'a> {
    pub stage: &'a AtomicU64,
    pub role: Role,
    pub link: MemoryLink,
}

impl<'a> Staged<'a> {
    // Whether so much was reached.
    fn has_reached(&self, stage: u64) -> bool {
        self.stage.load(Ordering::SeqCst) >= stage
    }

    // Reaches it, unless that was done before.
    fn reach(&self, stage: u64) {
        if !self.has_reached(stage) {
            self.stage.store(stage, Ordering::SeqCst);
        }
    }
}

impl<'a> Link for Staged<'a> {
    ghost calls = { λ _. None };

    ghost faults = { λ s. s.link.faults };

    ghost stalls = { λ s. s.link.stalls };

    fn poll(&mut self, into: &mut [u8]) -> Poll {
        match self.role {
            Role::First if self.has_reached(ANSWERED) => Poll::Closed,
            Role::First => {
                self.reach(POLLED);
                Poll::Nothing
            }
            Role::Second if self.has_reached(POLLED) => self.link.poll(into),
            Role::Second => Poll::Nothing,
        }
    }

    fn offer(&mut self, octets: &[u8]) -> Offer {
        let answer = self.link.offer(octets);
        self.link.shut();
        self.reach(ANSWERED);
        answer
    }
}
