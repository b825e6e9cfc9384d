// When a source's call may wait, and when bells are rung.

use bell::{Bells, Waiter};
use operator_side::Listening;
use std::os::fd::RawFd;
use std::time::Duration;

// How often a call waits at most while nothing has come yet. A stop is looked for after each.
const WAITS: u32 = 5;

// How many entries a recorder takes at most before it stores and publishes them.
const LONGEST_BATCH: u32 = 256;

/// What a source's calls wait with, and what they ring.
#[derive(Drop)]
pub(crate) struct Pacing {
    // What a call waits with, if it may wait, and what is rung after entries were published.
    waiter: Option<Waiter>,
    bells: Option<Bells>,
    // How many entries were given since the recorder began its batch, and whether the next call begins
    // a batch.
    given: u32,
    is_new_batch: bool,
    // How often the call may still wait.
    waits: u32,
}

impl Pacing {
    /// Waits for nothing, and rings nothing.
    pub fn new() -> Pacing {
        Pacing {
            waiter: None,
            bells: None,
            given: 0,
            is_new_batch: true,
            waits: 0,
        }
    }

    /// Has it wait with this waiter if a recorder's step begins and nothing has come yet, and ring
    /// these bells after entries that it gave were published.
    pub fn wait_with(&mut self, waiter: Waiter, bells: Bells, listening: &Listening) {
        let _ = waiter.watch(listening.descriptor());
        self.waiter = Some(waiter);
        self.bells = Some(bells);
    }

    /// A call begins. If it is a batch's first, what was given before is published by now, and the
    /// call may wait.
    pub fn begin(&mut self) {
        self.waits = 0;
        if !self.is_new_batch {
            return;
        }
        self.waits = WAITS;
        if self.given > 0
            && let Some(bells) = &self.bells
        {
            bells.ring_published();
        }
        self.given = 0;
        self.is_new_batch = false;
    }

    /// A call ends: with an entry, or without.
    pub fn end(&mut self, is_entry: bool) {
        self.given = self.given.saturating_add(u32::from(is_entry));
        self.is_new_batch = !is_entry || self.given >= LONGEST_BATCH;
    }

    /// Waits if it may, so many milliseconds at most, and answers whether it did.
    pub fn wait(&mut self, millis: u64) -> bool {
        let (Some(waiter), Some(waits)) = (&mut self.waiter, self.waits.checked_sub(1)) else {
            return false;
        };
        self.waits = waits;
        waiter.wait(Duration::from_millis(millis)).is_ok()
    }

    /// Has it wait for this socket too, if it waits.
    pub fn watch(&self, socket: RawFd) {
        if let Some(waiter) = &self.waiter {
            let _ = waiter.watch(socket);
        }
    }
}
