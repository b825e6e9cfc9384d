// A step of an antenna's worker: what may radiate is taken in a turn, sent with no turn open, and
// told as done or interrupted in a turn.
ghost use Rattle.std.specs.Prelude.{◌≡◌, ◌≤◌, IfOk, IfErr};
ghost use Rattle.cltu_queue.specs.declared.taken.Taken.TheVariants.{Radiate};
ghost use Rattle.station_turns.specs.Turned.{IsReady};
ghost use Rattle.antenna_turns.specs.Radiating.{Rests, WorksOnce, worker};

use antenna_core::Antenna;
use cds_time::Clock;
use cltu_queue::Taken;
use octet_core::{Failed, Octets};
use station_book::{Event, Station};
use station_turns::laws::{gains_compose, readings_compose};
use station_turns::{Taking, done, interrupted, read, take};
use std::sync::Wait;
use std::time::Duration;
use std::{rt, thread};
use turn_lock::Pass;

// How many milliseconds the worker sleeps while no CLTU waits, unless it is woken.
const IDLE_MILLIS: u64 = 50;

// How many nanoseconds it sleeps at most while a CLTU waits for its earliest time.
const WAIT_NANOS: u64 = 5_000_000;

const PICOS_A_NANO: u128 = 1_000;

/// What a step came to: what its take found, or how the send of the CLTU that it took ended.
#[derive(Clone, Copy, Debug, PartialEq, Eq)]
pub enum AntennaStep {
    /// Nothing may radiate.
    Idle {
        /// Whether every worker but the antenna's was gone.
        all_gone: bool,
    },
    /// The next CLTU may radiate from a moment on.
    Waits {
        /// The moment, in picoseconds since 1958-01-01.
        until: u128,
    },
    /// The next CLTU's latest time has passed, and all that waited was discarded.
    Expired {
        /// Its identification.
        id: u32,
    },
    /// A CLTU was radiated.
    Sent {
        /// Its identification.
        id: u32,
    },
    /// A CLTU's radiation was interrupted.
    Failed {
        /// Its identification.
        id: u32,
    },
}

// A CLTU that was taken.
#[derive(Drop)]
pub(crate) struct Radiation {
    pub run: u64,
    pub id: u32,
    pub octets: Octets,
}

// What a take found: a CLTU, or what the step comes to without one.
fn found(taking: Taking) -> Result<Radiation, AntennaStep>
    ensures radiates { IfOk result (λ r. taking.taken ≡ Radiate r.run r.id r.octets) }
    ensures rests { IfErr result (λ step. Rests taking.taken taking.all_gone step) }
{
    match taking.taken {
        Taken::Idle => Err(AntennaStep::Idle {
            all_gone: taking.all_gone,
        }),
        Taken::Waits { until } => Err(AntennaStep::Waits { until }),
        Taken::Expired { id } => Err(AntennaStep::Expired { id }),
        Taken::Radiate { run, id, octets } => Ok(Radiation { run, id, octets }),
    }
}

// How long the worker sleeps after a take that found nothing to do at this moment: until a CLTU's
// earliest time, but for five milliseconds at most, since another CLTU may be accepted. None after a
// take that did something, or that was the last.
fn rest_of(step: AntennaStep, now: u128) -> Option<Duration> {
    match step {
        AntennaStep::Idle { all_gone: false } => Some(Duration::from_millis(IDLE_MILLIS)),
        AntennaStep::Waits { until } => {
            let left = until.saturating_sub(now).div_ceil(PICOS_A_NANO);
            Some(Duration::from_nanos(left.min(u128::from(WAIT_NANOS)) as u64))
        }
        _ => None,
    }
}

// Sleeps after a take that found nothing to do at this moment.
fn rest<R: rt::Clock>(rt: &R, step: AntennaStep, now: u128) {
    if let Some(time) = rest_of(step, now) {
        thread::sleep(rt, time);
    }
}

/// Takes what may radiate, sends it, and tells how that ended. If nothing may radiate yet, it sleeps
/// with no turn open: for 50 ms, or while a CLTU waits, for the lesser of 5 ms and the time left.
pub fn antenna_step<R: Wait + rt::Clock, A: Antenna, C: Clock>(
    rt: &R,
    station: &Station,
    pass: &mut Pass<Event>,
    antenna: &mut A,
    clock: &mut C,
) -> AntennaStep
    requires ready { IsReady station.now pass.old }
    requires left { 2 ≤ pass.old.left }
    ensures ready { IsReady station.now pass.new }
    ensures works { WorksOnce A.sent A.faults C.readings station.now result
        (worker antenna.old clock.old pass.old) (worker antenna.new clock.new pass.new) }
{
    gains_compose();
    readings_compose();
    let reading = read(clock);
    let taking = take(rt, station, pass, reading);
    match found(taking) {
        Err(step) => {
            rest(rt, step, reading);
            step
        }
        Ok(radiation) => {
            let Radiation { run, id, octets } = radiation;
            let sent = antenna.send(octets.as_slice());
            let ended = read(clock);
            match sent {
                Ok(()) => {
                    done(rt, station, pass, run, id, ended);
                    AntennaStep::Sent { id }
                }
                Err(Failed) => {
                    interrupted(rt, station, pass, run, id, ended);
                    AntennaStep::Failed { id }
                }
            }
        }
    }
}
