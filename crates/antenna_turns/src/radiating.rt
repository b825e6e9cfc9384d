// The antenna's worker.
ghost use Rattle.std.specs.Prelude.{◌≡◌};
ghost use Rattle.station_turns.specs.Turned.{IsReady};
ghost use Rattle.antenna_turns.specs.Radiating.{Radiates, worker};

use crate::stepping::{AntennaStep, antenna_step};
use antenna_core::Antenna;
use cds_time::Clock;
use station_book::{Event, Station};
use station_turns::laws::{gains_compose, readings_compose};
use std::rt;
use std::sync::Wait;
use turn_lock::Pass;

/// How many CLTUs an antenna's worker radiated, and how many radiations were interrupted.
#[derive(Clone, Copy, Debug, PartialEq, Eq)]
pub struct Radiated {
    /// Those that were sent.
    pub sent: u64,
    /// Those whose send failed.
    pub failed: u64,
}

/// Fewer than two turns are left, so that no CLTU may be taken any more.
#[derive(Clone, Copy, Debug, PartialEq, Eq)]
pub struct TurnsSpent {
    /// What was radiated till then.
    pub radiated: Radiated,
}

/// Radiates what the book's queue has, until all other workers are gone and nothing is left to
/// radiate, or until fewer than two turns are left.
pub fn radiate<R: Wait + rt::Clock, A: Antenna, C: Clock>(
    rt: &R,
    station: &Station,
    pass: &mut Pass<Event>,
    antenna: &mut A,
    clock: &mut C,
) -> Result<Radiated, TurnsSpent>
    requires ready { IsReady station.now pass.old }
    ensures ready { IsReady station.now pass.new }
    ensures radiates { Radiates A.sent A.faults C.readings station.now result
        (worker antenna.old clock.old pass.old) (worker antenna.new clock.new pass.new) }
{
    gains_compose();
    readings_compose();
    let _turns = pass.left();
    let mut counts = Radiated { sent: 0, failed: 0 };
    'steps: while pass.left() >= 2 {
        match antenna_step(rt, station, pass, antenna, clock) {
            AntennaStep::Idle { all_gone: true } => return Ok(counts),
            AntennaStep::Idle { all_gone: false } => {}
            AntennaStep::Waits { .. } => {}
            AntennaStep::Expired { .. } => {}
            AntennaStep::Sent { .. } => counts.sent += 1,
            AntennaStep::Failed { .. } => counts.failed += 1,
        }
    }
    Err(TurnsSpent { radiated: counts })
}
