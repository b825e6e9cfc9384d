// The workers of a station, each with its turns.
ghost use Rattle.std.specs.Prelude.{◌≡◌, ◌+◌, ◌*◌, ◌≤◌, [], IfOk, All, vec_len, vec_capacity};
ghost use Rattle.station_seats.specs.Seats.{IsFresh, IsMain, turns_of};

use antenna_turns::{Radiated, TurnsSpent};
use octet_core::Memory;
use recorder_turns::{RecordingFault, Tally};
use station_book::{Event, Station};
use station_seats::{DoorReport, DoorSeat, seat_all, split_off};
use std::alloc::Global;
use turn_lock::Pass;

// The seat of the recorder's worker: its pass, and how it ended.
#[derive(Drop)]
pub(crate) struct RecorderSeat {
    pub(crate) pass: Pass<Event>,
    pub(crate) ended: Result<Tally, RecordingFault>,
}

// The seat of the antenna's worker: its pass, and how it ended.
#[derive(Drop)]
pub(crate) struct AntennaSeat {
    pub(crate) pass: Pass<Event>,
    pub(crate) ended: Result<Radiated, TurnsSpent>,
}

// The seats of all workers, and space for the reports of the doors'.
#[derive(Drop)]
pub(crate) struct Crew {
    pub(crate) recorder: RecorderSeat,
    pub(crate) antenna: AntennaSeat,
    pub(crate) doors: Vec<DoorSeat>,
    pub(crate) reports: Vec<DoorReport>,
}

impl Crew {
    // The seats of a crew with so many doors, each with so many turns of the pass. None has run yet.
    pub(crate) fn seated(
        alloc: Global,
        station: &Station,
        pass: &mut Pass<Event>,
        count: usize,
        turns: u64,
    ) -> Result<Crew, Memory>
        requires main { IsMain station.now pass.old }
        requires few { count ≤ 16 }
        requires turns { (count + 2) * turns ≤ pass.old.left }
        ensures main { IsMain station.now pass.new }
        ensures left { IfOk result (λ crew. pass.new.left + turns + turns
            + turns_of crew.doors.items ≡ pass.old.left) }
        ensures recorder { IfOk result (λ crew. IsFresh station.now turns crew.recorder.pass) }
        ensures antenna { IfOk result (λ crew. IsFresh station.now turns crew.antenna.pass) }
        ensures doors { IfOk result (λ crew. (vec_len crew.doors ≡ count)
            × All (λ seat. IsFresh station.now turns seat.pass) crew.doors.items) }
        ensures reports { IfOk result (λ crew. (crew.reports.items ≡ [])
            × (count ≤ vec_capacity crew.reports)) }
    {
        let reports = Vec::with_capacity(alloc, count)?;
        let recorder = split_off(station, pass, turns);
        let antenna = split_off(station, pass, turns);
        let doors = seat_all(alloc, station, pass, count, turns)?;
        Ok(Crew {
            recorder: RecorderSeat {
                pass: recorder,
                ended: Err(RecordingFault::TurnsSpent),
            },
            antenna: AntennaSeat {
                pass: antenna,
                ended: Err(TurnsSpent {
                    radiated: Radiated { sent: 0, failed: 0 },
                }),
            },
            doors,
            reports,
        })
    }
}
