// The machine's Unix time, and where it comes from.
ghost use Rattle.std.specs.Prelude.{ℕ, List, Option, None};
ghost use Rattle.cds_time.specs.Readings.{TellsNext};
ghost use Rattle.cds_time.specs.Unix.{nanos_of};

use std::rt;
use std::time::Duration;

/// Where the machine's Unix time is read: the time since 1970-01-01T00:00:00 UTC, in days of
/// 86,400 seconds (POSIX, Seconds Since the Epoch).
pub trait UnixTime: Drop + Send {
    /// What was shown so far, in nanoseconds, the oldest first, or none where the machine doesn't
    /// tell.
    ghost shown: { Self → Option (List (Option ℕ)) };

    /// The Unix time now, or none where the machine shows none from 1970 on.
    fn since_1970(&mut self) -> Option<Duration>
        ensures { TellsNext (shown self.old) (shown self.new) (nanos_of result) };
}

/// The Unix time of a runtime. It tells nothing: what the machine shows is trusted.
#[derive(Clone, Copy, Debug, Drop)]
pub struct MachineTime<R>(pub R);

impl<R: rt::Clock + Drop + Send> UnixTime for MachineTime<R> {
    ghost shown = { λ _. None };

    fn since_1970(&mut self) -> Option<Duration> {
        self.0.since_1970().ok()
    }
}
