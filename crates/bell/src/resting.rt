// A runtime whose sleeps a ring ends.

use crate::{Bells, Waiter};
use std::io;
use std::rt::Clock;
use std::sync::{Mutex, Wait};
use std::thread::Threads;
use std::time::Duration;

// A wait counts in milliseconds.
const NANOS_A_MILLI: u32 = 1_000_000;

/// A runtime that does what another does, except that a ring of its waiter ends a sleep. If two
/// threads sleep at once, the ring ends the sleep of one of them, and the other sleeps its time.
///
/// It is meant for the antenna's worker: each sleep is noted with the bells.
#[derive(Drop)]
pub struct Resting<'a, R> {
    rt: &'a R,
    waiter: Mutex<Waiter>,
    bells: Bells,
}

impl<'a, R> Resting<'a, R> {
    /// This runtime, which sleeps with this waiter and notes that with these bells.
    pub fn new(rt: &'a R, waiter: Waiter, bells: Bells) -> Resting<'a, R> {
        Resting {
            rt,
            waiter: Mutex::new(waiter),
            bells,
        }
    }
}

// Waits for a ring, and answers what is left of the time if none came: what is no whole millisecond,
// or all if the system refuses the wait.
fn left_of(waiter: &mut Waiter, time: Duration) -> Duration {
    let rest = Duration::from_nanos(u64::from(time.subsec_nanos() % NANOS_A_MILLI));
    match waiter.wait(time.saturating_sub(rest)) {
        Ok(()) if waiter.has_found() => Duration::ZERO,
        Ok(()) => rest,
        Err(_) => time,
    }
}

impl<R: Threads> Threads for Resting<'_, R> {}

impl<R: Wait> Wait for Resting<'_, R> {}

impl<R: Clock> Clock for Resting<'_, R> {
    fn monotonic(&self) -> io::Result<Duration> {
        self.rt.monotonic()
    }

    fn since_1970(&self) -> io::Result<Duration> {
        self.rt.since_1970()
    }

    fn sleep(&self, duration: Duration) {
        let left = match self.waiter.try_lock() {
            Some(mut waiter) => left_of(&mut waiter, duration),
            None => duration,
        };
        if !left.is_zero() {
            self.rt.sleep(left);
        }
        self.bells.note_slept();
    }
}
