// The thread that serves a run's status page.

use crate::capacity::Capacity;
use bell::{Ringer, Waiter};
use octet_core::Memory;
use operator_side::{SteadyTime, Stop};
use station_board::Board;
use status_port::StatusPort;
use std::alloc::Global;
use std::rt::Clock;
use std::sync::Arc;
use std::sync::atomic::{AtomicBool, Ordering};
use std::thread::{JoinHandle, Threads, sleep, spawn};
use std::time::Duration;

// For how many milliseconds the thread waits until it looks again: while connections are there, and
// else. It hears of a new one at once.
const BUSY_MILLIS: u64 = 2;

const IDLE_MILLIS: u64 = 100;

/// What a run is watched by: its board, and the port at which its page is served.
#[derive(Drop)]
pub struct StatusSide {
    /// The board.
    pub board: Board,
    pub(crate) port: StatusPort,
    pub(crate) waiter: Waiter,
    // The time of the run, and the stop that the page tells, if one can be asked for.
    pub(crate) steady: Option<SteadyTime>,
    pub(crate) stop: Option<Stop>,
    /// What the archive may grow to, once that is known.
    pub capacity: Option<Capacity>,
}

/// A thread that serves a status page until it is ended.
#[derive(Drop)]
pub struct StatusThread {
    is_over: Arc<AtomicBool, Global>,
    ringer: Ringer,
    thread: JoinHandle<()>,
}

// The machine's time, in milliseconds since 1970.
pub(crate) fn millis_of(time: Option<Duration>) -> u64 {
    match time {
        Some(time) => u64::try_from(time.as_millis()).unwrap_or(u64::MAX),
        None => 0,
    }
}

impl StatusSide {
    // Tells the board the time, and what else the adapters don't.
    fn tick<R: Clock>(&self, rt: &R) {
        let wall = rt.since_1970().ok();
        let at = match &self.steady {
            Some(steady) => steady.since_1970(rt),
            None => wall,
        };
        self.board.tick(millis_of(at), millis_of(wall));
        if self.stop.as_ref().is_some_and(Stop::is_asked) {
            self.board.stopping();
        }
        if let Some(octets) = self.capacity.as_ref().and_then(Capacity::octets) {
            self.board.archive_capacity(octets);
        }
    }

    // Waits for a connection or a ring, or until it looks again.
    fn rest<R: Clock>(&mut self, rt: &R) {
        let millis = if !self.port.is_idle() {
            BUSY_MILLIS
        } else {
            IDLE_MILLIS
        };
        let limit = Duration::from_millis(millis);
        if self.waiter.wait(limit).is_err() {
            sleep(rt, limit);
        }
    }
}

// Tells the board the time and serves its page, until that is over.
fn serve<R: Clock>(rt: &R, is_over: &AtomicBool, side: &mut StatusSide) {
    for _ in 0..u64::MAX {
        if is_over.load(Ordering::SeqCst) {
            return;
        }
        side.tick(rt);
        side.port.look(&side.board);
        side.rest(rt);
    }
}

impl StatusThread {
    /// Starts it. Where no thread can be had, no page is served.
    pub fn start<R: Threads + Clock + Clone + Send + Drop + 'static>(
        rt: &R,
        alloc: Global,
        side: StatusSide,
    ) -> Result<Option<StatusThread>, Memory> {
        let is_over = Arc::new(alloc, AtomicBool::new(false))?;
        let theirs = Arc::try_clone(&is_over)?;
        let Ok(ringer) = side.waiter.ringer() else {
            return Ok(None);
        };
        let Ok(own) = rt.clone() else {
            return Err(Memory);
        };
        let mut side = side;
        let spawned = spawn(rt, move || serve(&own, &theirs, &mut side));
        Ok(match spawned {
            Ok(thread) => Some(StatusThread {
                is_over,
                ringer,
                thread,
            }),
            Err(_) => None,
        })
    }

    /// Ends it, and waits until it has come to its end.
    pub fn end<R: Threads>(self, rt: &R) {
        let StatusThread {
            is_over,
            ringer,
            thread,
        } = self;
        is_over.store(true, Ordering::SeqCst);
        ringer.ring();
        thread.join(rt);
    }
}
