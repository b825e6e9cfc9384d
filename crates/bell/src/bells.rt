// What is rung when a thread did something that others wait for.

use crate::{Ringer, Waiter};
use std::alloc::{AllocError, Global};
use std::io;
use std::sync::Arc;
use std::sync::atomic::{AtomicBool, Ordering};

/// The bells of a station: all that share them ring the same threads.
#[derive(Drop)]
pub struct Bells {
    shared: Arc<Shared, Global>,
}

// What ends the waits of the doors, the source and the antenna, and what the antenna's worker did
// since it was last asked.
#[derive(Drop)]
struct Shared {
    doors: Vec<Ringer>,
    source: Ringer,
    antenna: Ringer,
    has_sent: AtomicBool,
    has_slept: AtomicBool,
}

// What ends the wait of each of these.
fn ringers_of(alloc: Global, waiters: &[Waiter]) -> io::Result<Vec<Ringer>> {
    let mut ringers = Vec::with_capacity(alloc, waiters.len())?;
    for waiter in waiters {
        ringers.push(waiter.ringer()?)?;
    }
    Ok(ringers)
}

impl Bells {
    /// Bells that end the waits of these.
    pub fn new(
        alloc: Global,
        doors: &[Waiter],
        source: &Waiter,
        antenna: &Waiter,
    ) -> io::Result<Bells> {
        let shared = Shared {
            doors: ringers_of(alloc, doors)?,
            source: source.ringer()?,
            antenna: antenna.ringer()?,
            has_sent: AtomicBool::new(false),
            has_slept: AtomicBool::new(false),
        };
        Ok(Bells {
            shared: Arc::new(alloc, shared)?,
        })
    }

    /// The same bells, for another that rings them.
    pub fn share(&self) -> Result<Bells, AllocError> {
        Ok(Bells {
            shared: Arc::try_clone(&self.shared)?,
        })
    }

    /// Rings each door that asks for it: entries were published. The antenna's worker isn't rung,
    /// since entries are many and its next sleep is short.
    pub fn ring_published(&self) {
        for door in &self.shared.doors {
            door.ring_if_asked();
        }
    }

    /// Rings the antenna's worker: a CLTU may have been accepted.
    pub fn ring_asked(&self) {
        self.shared.antenna.ring();
    }

    /// Rings all doors: a CLTU was radiated, interrupted or discarded, and its turn was made. A door
    /// that has to tell of it may ask for nothing after many entries, so none is left out.
    pub fn ring_radiated(&self) {
        for door in &self.shared.doors {
            door.ring();
        }
    }

    /// Rings all: the station is to stop.
    pub fn ring_all(&self) {
        self.ring_radiated();
        self.shared.source.ring();
        self.shared.antenna.ring();
    }

    /// Notes that a CLTU was sent, or that its send failed.
    pub fn note_sent(&self) {
        self.shared.has_sent.store(true, Ordering::SeqCst);
    }

    /// True if that was noted since this was asked last.
    pub fn take_sent(&self) -> bool {
        self.shared.has_sent.swap(false, Ordering::SeqCst)
    }

    /// Notes that the antenna's worker slept.
    pub fn note_slept(&self) {
        self.shared.has_slept.store(true, Ordering::SeqCst);
    }

    /// True if that was noted since this was asked last.
    pub fn take_slept(&self) -> bool {
        self.shared.has_slept.swap(false, Ordering::SeqCst)
    }
}
