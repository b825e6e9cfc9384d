// What a thread waits with.

use mio::unix::SourceFd;
use mio::{Events, Interest, Poll, Token, Waker};
use std::alloc::Global;
use std::io;
use std::io::ErrorKind;
use std::net::Net;
use std::os::fd::RawFd;
use std::sync::Arc;
use std::sync::atomic::{AtomicBool, Ordering};
use std::time::Duration;

// How many events a wait takes from the system at most.
const EVENTS: usize = 4;

const RUNG: Token = Token(0);

const SOCKET: Token = Token(1);

// After how many vain rings in a row the thread asks for none.
const VAIN_RINGS: u32 = 8;

// How many milliseconds a wait lasts at most while no ring is asked for, and after how many of these
// waits the thread asks for one again: a second.
const SHORT_MILLIS: u64 = 10;

const SHORT_WAITS: u32 = 100;

/// What a thread waits with: for sockets, for a ring, and for a time.
#[derive(Drop)]
pub struct Waiter {
    poll: Poll,
    events: Events,
    // True while it asks for rings.
    asks: Arc<AtomicBool, Global>,
    // How many rings in a row were vain: nothing was found after them.
    vain: u32,
    // How many waits it made since it stopped asking.
    waits: u32,
}

/// What rings a thread.
#[derive(Drop)]
pub struct Ringer {
    waker: Waker,
    asks: Arc<AtomicBool, Global>,
}

impl Ringer {
    /// Ends the wait of its thread, or else the next one. A ring that the system refuses is lost: each
    /// wait ends by its time too.
    pub fn ring(&self) {
        let _ = self.waker.wake();
    }

    /// Does the same if the thread asks for rings.
    pub fn ring_if_asked(&self) {
        if self.asks.load(Ordering::SeqCst) {
            self.ring();
        }
    }
}

impl Waiter {
    /// Watches no socket yet.
    pub fn new<R: Net>(rt: &R, alloc: Global) -> io::Result<Waiter> {
        Ok(Waiter {
            poll: Poll::new(rt)?,
            events: Events::with_capacity(alloc, EVENTS)?,
            asks: Arc::new(alloc, AtomicBool::new(true))?,
            vain: 0,
            waits: 0,
        })
    }

    /// What ends its wait from another thread.
    pub fn ringer(&self) -> io::Result<Ringer> {
        Ok(Ringer {
            waker: Waker::new(self.poll.registry(), RUNG)?,
            asks: Arc::try_clone(&self.asks)?,
        })
    }

    /// Has its waits end when octets or connections come at this non-blocking socket, or when there is
    /// room after a write that found none, until the socket is closed. A change ends one wait, so a
    /// thread waits only after a call that came to nothing. A socket that is watched already is
    /// watched anew.
    pub fn watch(&self, socket: RawFd) -> io::Result<()> {
        let both = Interest::READABLE | Interest::WRITABLE;
        let registry = self.poll.registry();
        match registry.register(&mut SourceFd(&socket), SOCKET, both) {
            Err(error) if error.kind() == ErrorKind::AlreadyExists => {
                registry.reregister(&mut SourceFd(&socket), SOCKET, both)
            }
            answer => answer,
        }
    }

    /// Waits for a socket or a ring, and at most so long. It may end early.
    pub fn wait(&mut self, limit: Duration) -> io::Result<()> {
        match self.poll.poll(&mut self.events, Some(limit)) {
            Err(error) if error.kind() == ErrorKind::Interrupted => Ok(()),
            answer => answer,
        }
    }

    /// Does the same for a thread whose rings may be vain. After eight vain rings in a row it asks for
    /// none for a second, and each wait lasts 10 ms at most. So does the wait in which it asks again:
    /// what was done just before isn't rung for.
    pub fn wait_for_ring(&mut self, limit: Duration) -> io::Result<()> {
        if self.vain < VAIN_RINGS {
            self.wait(limit)?;
            self.count_vain();
            return Ok(());
        }
        self.waits = self.waits.saturating_add(1);
        if self.waits >= SHORT_WAITS {
            self.ask(VAIN_RINGS - 1);
        }
        self.wait(limit.min(Duration::from_millis(SHORT_MILLIS)))
    }

    /// True if a socket or a ring ended the last wait.
    pub fn has_found(&self) -> bool {
        !self.events.is_empty()
    }

    /// The last ring wasn't vain, or something has come that makes rings useful.
    pub fn found_something(&mut self) {
        if self.vain > 0 {
            self.ask(0);
        }
    }

    // Asks for rings, so many of which were vain.
    fn ask(&mut self, vain: u32) {
        self.vain = vain;
        self.asks.store(true, Ordering::SeqCst);
    }

    // Counts the last wait's ring as vain, if one ended it, until something is found.
    fn count_vain(&mut self) {
        self.vain = self.vain.saturating_add(u32::from(self.was_rung()));
        if self.vain >= VAIN_RINGS {
            self.asks.store(false, Ordering::SeqCst);
            self.waits = 0;
        }
    }

    // True if a ring ended the last wait.
    fn was_rung(&self) -> bool {
        self.events.iter().any(|event| event.token() == RUNG)
    }
}
