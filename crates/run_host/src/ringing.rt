// The machine's time, whose readings tell the doors what the antenna did.
ghost use Rattle.std.specs.Prelude.{None};

use bell::Bells;
use cds_time::UnixTime;
use operator_side::{ClockWatch, Stamped, SteadyTime, Stop};
use std::alloc::Global;
use std::io::Eprint;
use std::rt::Clock;
use std::time::Duration;

// How many milliseconds are between two looks for a stop at least: a look costs as much as a step of
// the antenna's worker.
const LOOK_MILLIS: u64 = 50;

/// What the readings of the antenna's worker do besides.
#[derive(Drop)]
pub(crate) struct AtReading {
    alloc: Global,
    bells: Bells,
    // The stop that is looked for, until it was asked for and all were rung.
    stop: Option<Stop>,
    // When it was looked for last.
    looked: Option<Duration>,
    // What compares the machine's clock with the station's time then.
    watch: ClockWatch,
}

/// The machine's Unix time. It shows nothing: what the machine says is trusted.
///
/// The antenna's worker reads its time before each take and after each send, and sleeps after a take
/// that found nothing. So a reading with neither a sleep nor a send before it comes after a turn that
/// told of a radiation or discarded CLTUs, and rings the doors. Its readings also look for a stop, each
/// 50 ms at most, and ring all once it is asked for, and report where the machine's clock was set.
#[derive(Drop)]
pub struct StationTime<'a, R> {
    rt: &'a R,
    // A run's time, which goes on whatever the machine's clock is set to.
    steady: Option<SteadyTime>,
    at_reading: Option<AtReading>,
}

impl AtReading {
    // Rings these bells, and looks for this stop, if for one.
    pub fn new(alloc: Global, bells: Bells, stop: Option<Stop>) -> AtReading {
        AtReading {
            alloc,
            bells,
            stop,
            looked: None,
            watch: ClockWatch::new(),
        }
    }

    // Does what a reading of this time does.
    fn act<R: Eprint + Clock>(
        &mut self,
        rt: &R,
        now: Option<Duration>,
        steady: Option<&SteadyTime>,
    ) {
        let (has_slept, has_sent) = (self.bells.take_slept(), self.bells.take_sent());
        if !has_slept && !has_sent {
            self.bells.ring_radiated();
        }
        if self.is_due(now) {
            self.looked = now;
            self.look(rt);
            self.compare(rt, steady);
        }
    }

    // True if it is time to look for a stop.
    fn is_due(&self, now: Option<Duration>) -> bool {
        match (now, self.looked) {
            (Some(now), Some(looked)) => now.abs_diff(looked) >= Duration::from_millis(LOOK_MILLIS),
            _ => true,
        }
    }

    // Reports where the machine's clock isn't at a run's time.
    fn compare<R: Eprint + Clock>(&mut self, rt: &R, steady: Option<&SteadyTime>) {
        if let Some(steady) = steady {
            let mut reports = Stamped::new(rt, self.alloc);
            self.watch.look(rt, self.alloc, steady, &mut reports);
        }
    }

    // Looks for the stop, and rings all once it is asked for.
    fn look<R: Eprint + Clock>(&mut self, rt: &R) {
        let Some(stop) = &self.stop else {
            return;
        };
        stop.look(self.alloc, &mut Stamped::new(rt, self.alloc));
        if stop.is_asked() {
            self.bells.ring_all();
            self.stop = None;
        }
    }
}

impl<'a, R> StationTime<'a, R> {
    // This machine's time, or a run's, whose readings do this besides.
    pub(crate) fn new(
        rt: &'a R,
        steady: Option<SteadyTime>,
        at_reading: Option<AtReading>,
    ) -> StationTime<'a, R> {
        StationTime {
            rt,
            steady,
            at_reading,
        }
    }
}

impl<R: Eprint + Clock + Sync> UnixTime for StationTime<'_, R> {
    ghost shown = { λ _. None };

    fn since_1970(&mut self) -> Option<Duration> {
        let now = match &self.steady {
            Some(steady) => steady.since_1970(self.rt),
            None => self.rt.since_1970().ok(),
        };
        if let Some(at_reading) = &mut self.at_reading {
            at_reading.act(self.rt, now, self.steady.as_ref());
        }
        now
    }
}
