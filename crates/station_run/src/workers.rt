// Each worker at its seat.
ghost use Rattle.std.specs.Prelude.{◌≡◌, ◌<◌, ◌≤◌, [], ◌∷◌, false};
ghost use Rattle.station_config.specs.Validity.{IsSite};
ghost use Rattle.station_seats.specs.Seats.{IsFresh};
ghost use Rattle.recorder_turns.specs.Steps.{worker as recorder_at};
ghost use Rattle.antenna_turns.specs.Radiating.{worker as antenna_at};
ghost use Rattle.station_run.specs.Workers.{HasEnded, RecordsAt, RadiatesAt, CanServe, HaveServed};

use crate::crew::{AntennaSeat, RecorderSeat};
use antenna_core::Antenna;
use antenna_turns::radiate;
use cds_time::Clock;
use disk_model::Disk;
use door_model::Door;
use door_turns::serve_doors;
use frame_archive::FrameArchive;
use recorder::FrameSource;
use recorder_turns::recording;
use station_book::Station;
use station_config::Site;
use station_seats::{DoorSeat, split_off};
use station_turns::gone;
use std::alloc::Global;
use std::rt;
use std::sync::Wait;
use std::thread::Threads;

// Records what a source gives, and tells that the recorder's worker is gone.
pub(crate) fn record_at<R: Wait + rt::Clock, D: Disk, F: FrameSource>(
    rt: &R,
    alloc: Global,
    station: &Station,
    seat: &mut RecorderSeat,
    archive: &mut FrameArchive<D>,
    frames: &mut F,
    number: u32,
    turns: u64,
)
    requires fresh { IsFresh station.now turns seat.old.pass }
    requires turns { 0 < turns }
    requires rests { archive.old.waiting ≡ [] }
    requires opened { archive.old.is_stale ≡ false }
    requires number { number ≤ station.now.origin.workers }
    ensures ended { HasEnded station.now turns seat.new.pass }
    ensures joined { seat.new.pass.joined ≡ [] }
    ensures records { RecordsAt D.pending D.faults D.makes D.fails D.fails_to_read F.answers F.faults
        station.now number seat.new.ended
        (recorder_at archive.old frames.old seat.old.pass)
        (recorder_at archive.new frames.new seat.new.pass) }
{
    seat.ended = recording(rt, alloc, station, &mut seat.pass, archive, frames);
    gone(rt, station, &mut seat.pass, number);
}

// Radiates until all others are gone, and tells that the antenna's worker is gone. One turn is kept
// back for that.
pub(crate) fn radiate_at<R: Wait + rt::Clock, A: Antenna, C: Clock>(
    rt: &R,
    station: &Station,
    seat: &mut AntennaSeat,
    antenna: &mut A,
    clock: &mut C,
    number: u32,
    turns: u64,
)
    requires fresh { IsFresh station.now turns seat.old.pass }
    requires turns { 0 < turns }
    requires number { number ≤ station.now.origin.workers }
    ensures ended { HasEnded station.now turns seat.new.pass }
    ensures joined { seat.new.pass.joined ≡ [] ∷ [] }
    ensures radiates { RadiatesAt A.sent A.faults C.readings station.now number seat.new.ended
        (antenna_at antenna.old clock.old seat.old.pass)
        (antenna_at antenna.new clock.new seat.new.pass) }
{
    let kept = split_off(station, &mut seat.pass, 1);
    seat.ended = radiate(rt, station, &mut seat.pass, antenna, clock);
    station.join(&mut seat.pass, kept);
    gone(rt, station, &mut seat.pass, number);
}

// Serves all doors, at the seats of a vector.
pub(crate) fn serve_at<R: Threads + Wait + Sync, G: Door, C: Clock>(
    rt: &R,
    alloc: Global,
    station: &Station,
    seats: &mut Vec<DoorSeat>,
    site: &Site,
    doors: &mut [G],
    clocks: &mut [C],
    links: u32,
    draw: u32,
    turns: u64,
)
    requires can { CanServe station.now turns seats.old.items doors.old clocks.old }
    requires turns { 0 < turns }
    requires site { IsSite site.now }
    ensures { HaveServed G.shown G.faults G.Link.calls G.Link.faults C.readings station.now
        site.now draw links seats.old.items seats.new.items doors.old doors.new clocks.old
        clocks.new }
{
    let all = seats.as_mut_slice();
    serve_doors(rt, alloc, station, all, site, doors, clocks, 0, links, draw);
}
