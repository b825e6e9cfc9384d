// A clock that gives the readings of a list.
ghost use Rattle.std.specs.Prelude.{◌≡◌};
ghost use Rattle.cds_time.specs.Readings.{TellsNext};

use crate::{Cds, Clock};
use std::marker::Model;

/// A clock that gives the readings of a list, and then the last one again and again.
///
/// It tells its readings as long as the list lasts.
#[derive(Debug, Drop)]
pub struct MemoryClock {
    readings: Vec<Cds>,
    given: usize,
}

impl Model for MemoryClock {
    ghost use Rattle.std.specs.Prelude.{◌+◌, ◌≤◌, vec_len};
    ghost use Rattle.cds_time.specs.Readings.{Script};

    ghost Value = { Script };

    ghost view = { λ clock. record { readings = clock.readings.items; given = clock.given } };

    ghost invariant = { λ clock. clock.given ≤ vec_len clock.readings + 1 };
}

impl MemoryClock {
    /// A clock that gives these readings, the first one first.
    pub fn new(readings: Vec<Cds>) -> MemoryClock
        ensures { result ≡ record { readings = readings.items; given = 0 } }
    {
        MemoryClock { readings, given: 0 }
    }
}

impl Clock for MemoryClock {
    ghost use Rattle.cds_time.specs.Readings.{told_by, next_reading, after_reading};

    ghost readings = { told_by };

    /// The next reading of the list, the last one again behind it, or the epoch where it is empty.
    fn now(&mut self) -> Cds
        ensures told { TellsNext (told_by self.old) (told_by self.new) result }
        ensures reading { result ≡ next_reading self.old }
        ensures given { self.new ≡ after_reading self.old }
    {
        let reading = match self.readings.get(self.given) {
            Some(reading) => *reading,
            None => self.readings.last().copied().unwrap_or(Cds::EPOCH),
        };
        self.given = (self.given + 1).min(self.readings.len() + 1);
        reading
    }
}
