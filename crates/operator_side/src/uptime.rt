// Time that no step of the wall clock changes.

use std::rt::Clock;
use std::time::Duration;

/// Reads the time since some moment. It goes on whatever the wall clock is set to.
#[derive(Clone, Copy)]
pub struct Uptime {
    rt: HostRuntime,
}

impl Uptime {
    /// This machine's.
    pub fn new(rt: &HostRuntime) -> Uptime {
        Uptime { rt: *rt }
    }

    /// The time now, or zero if the machine has none.
    pub fn now(&self) -> Duration {
        self.rt.monotonic().unwrap_or(Duration::ZERO)
    }

    /// True if so much time has passed since a moment. A limit of zero never passes.
    pub fn has_passed(&self, limit: Duration, since: Duration) -> bool {
        !limit.is_zero() && self.now().saturating_sub(since) >= limit
    }
}
