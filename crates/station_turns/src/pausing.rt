// How long a worker sleeps that found nothing to do.

use std::rt::Clock;
use std::thread;
use std::time::Duration;

/// How many milliseconds a worker sleeps that found nothing to do.
const PAUSE_MILLIS: u64 = 5;

/// Sleeps for five milliseconds, so that a worker that found nothing to do leaves its processor to
/// others. It is called with no turn open.
pub fn pause<R: Clock>(rt: &R) {
    thread::sleep(rt, Duration::from_millis(PAUSE_MILLIS));
}
