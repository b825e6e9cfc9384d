// A station's time, and how far the machine's clock is from it.

use crate::report;
use std::alloc::{AllocError, Global};
use std::io;
use std::io::Write;
use std::rt::Clock;
use std::time::Duration;

// A difference of more milliseconds is reported.
const MOST_MILLIS: u128 = 1_000;

// How many seconds are between two reports.
const REPORT_SECONDS: u64 = 60;

/// The machine's time when it was made, plus the time that has passed since. So a step of the
/// machine's clock changes nothing.
#[derive(Clone, Copy)]
pub struct SteadyTime {
    wall: Duration,
    began: Duration,
}

impl SteadyTime {
    /// Begins now.
    pub fn begin<R: Clock>(rt: &R) -> io::Result<SteadyTime> {
        Ok(SteadyTime {
            wall: rt.since_1970()?,
            began: rt.monotonic()?,
        })
    }

    /// The time since 1970.
    pub fn since_1970<R: Clock>(&self, rt: &R) -> Option<Duration> {
        let now = rt.monotonic().ok()?;
        self.wall.checked_add(now.saturating_sub(self.began))
    }
}

/// Reports where the machine's clock differs from a station's time by more than a second: at once,
/// and once a minute while that lasts.
#[derive(Drop)]
pub struct ClockWatch {
    // When it reported last, by the station's time, unless the difference was gone since.
    reported: Option<Duration>,
}

impl ClockWatch {
    /// Has reported nothing yet.
    pub fn new() -> ClockWatch {
        ClockWatch { reported: None }
    }

    /// Compares the machine's clock with this time, and reports a difference.
    pub fn look<R: Clock, W: Write>(
        &mut self,
        rt: &R,
        alloc: Global,
        steady: &SteadyTime,
        reports: &mut W,
    ) {
        let (Some(now), Ok(wall)) = (steady.since_1970(rt), rt.since_1970()) else {
            return;
        };
        let difference = wall.abs_diff(now);
        if difference.as_millis() <= MOST_MILLIS {
            self.reported = None;
        } else if self.is_due(now) {
            self.reported = Some(now);
            report(reports, told(alloc, difference.as_secs(), wall > now));
        }
    }

    // True if nothing was reported in the last minute.
    fn is_due(&self, now: Duration) -> bool {
        match self.reported {
            Some(then) => now.saturating_sub(then) >= Duration::from_secs(REPORT_SECONDS),
            None => true,
        }
    }
}

// That the machine's clock is so many seconds ahead or behind.
fn told(alloc: Global, seconds: u64, is_ahead: bool) -> Result<String, AllocError> {
    let side = if is_ahead { "ahead of" } else { "behind" };
    format!(in alloc;
        "clock: the machine's clock is {seconds} s {side} the station's time; restart the station\n"
    )
}
