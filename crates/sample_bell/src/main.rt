// How a bell is used: one thread sleeps, and another rings it.
#![tactic(auto)]

use bell::{Bells, Resting, Waiter};
use std::alloc::Global;
use std::net::Net;
use std::rt::Clock;
use std::thread::{Threads, join};
use std::time::{Duration, Instant};
use std::{io, thread};

// How many milliseconds a sleep that nothing ends would last.
const LONG_MILLIS: u64 = 10_000;

// How many milliseconds pass before the bell is rung.
const SHORT_MILLIS: u64 = 20;

// Whether a sleep of ten seconds ended early, since the bell was rung meanwhile.
fn ends_early<R: Threads + Clock + Net + Sync>(rt: &R, alloc: Global) -> io::Result<bool> {
    let (source, antenna) = (Waiter::new(rt, alloc)?, Waiter::new(rt, alloc)?);
    let bells = Bells::new(alloc, &[], &source, &antenna)?;
    let resting = Resting::new(rt, antenna, bells.share()?);
    let begun = Instant::now(rt)?;
    join(
        &resting,
        || thread::sleep(&resting, Duration::from_millis(LONG_MILLIS)),
        || {
            thread::sleep(rt, Duration::from_millis(SHORT_MILLIS));
            bells.ring_asked();
        },
    );
    Ok(begun.elapsed(rt)? < Duration::from_millis(LONG_MILLIS / 2))
}

fn main(rt: HostRuntime) -> io::Result<()> {
    let is_early = ends_early(&rt, rt.alloc())?;
    println!(rt; "a ring ended a sleep: {is_early}")
}
