// The machine's clock.
ghost use Rattle.std.specs.Prelude.{◌≡◌};
ghost use Rattle.cds_time.specs.Unix.{readings_of};

use crate::{Cds, Clock, UnixTime};

/// The machine's clock, in microseconds: each reading is the time of the next Unix time that the
/// machine shows.
#[derive(Debug, Drop)]
pub struct SystemClock<U> {
    /// Where the Unix time comes from.
    pub machine: U,
}

impl<U: UnixTime> SystemClock<U> {
    /// A clock over this machine's time.
    pub fn new(machine: U) -> SystemClock<U>
        ensures { result.machine ≡ machine }
    {
        SystemClock { machine }
    }
}

impl<U: UnixTime> Clock for SystemClock<U> {
    ghost use Rattle.std.proofs.lemmas.List.{map_push};

    ghost readings = { λ clock. readings_of (U.shown clock.machine) };

    /// The time of the machine's Unix time, or the epoch where no CDS time names what it shows.
    fn now(&mut self) -> Cds {
        let since_1970 = self.machine.since_1970();
        since_1970.and_then(Cds::of_unix_time).unwrap_or(Cds::EPOCH)
    }
}
