// How far the doubles of a run have come.

use octet_core::Memory;
use std::alloc::Global;
use std::sync::Arc;
use std::sync::atomic::{AtomicU64, Ordering};
use std::thread;

// How often a wait looks.
const MOST_LOOKS: u64 = 2_000_000;

/// How far the doubles of a run have come: a number that all of them share.
#[derive(Drop)]
pub struct Stage {
    reached: Arc<AtomicU64, Global>,
}

impl Stage {
    /// Nothing is held yet.
    pub const CALM: u64 = 0;

    /// A call is held.
    pub const HELD: u64 = 1;

    /// A link was handed an answer to what came to it while the call was held, so the call goes on.
    pub const ANSWERED: u64 = 2;

    /// So far the doubles have come.
    pub fn at(alloc: Global, reached: u64) -> Result<Stage, Memory> {
        Ok(Stage {
            reached: Arc::new(alloc, AtomicU64::new(reached))?,
        })
    }

    /// The same number, for another double.
    pub fn share(&self) -> Result<Stage, Memory> {
        Ok(Stage {
            reached: Arc::try_clone(&self.reached)?,
        })
    }

    /// Whether so much was reached.
    pub fn has_reached(&self, stage: u64) -> bool {
        self.reached.load(Ordering::SeqCst) >= stage
    }

    /// Reaches it, unless that was done before.
    pub fn reach(&self, stage: u64) {
        if !self.has_reached(stage) {
            self.reached.store(stage, Ordering::SeqCst);
        }
    }

    /// Waits until so much is reached, and says whether it was. It yields at each of two million
    /// looks, and then waits no longer.
    pub fn wait(&self, stage: u64) -> bool {
        for _ in 0..MOST_LOOKS {
            if self.has_reached(stage) {
                return true;
            }
            thread::yield_now();
        }
        false
    }
}
