// All workers at once.
ghost use Rattle.std.specs.Prelude.{◌≡◌, ◌+◌, ◌<◌, ◌≤◌, [], ◌∷◌, false};
ghost use Rattle.std.specs.Thread.{IsSync};
ghost use Rattle.station_config.specs.Validity.{IsSite};
ghost use Rattle.station_seats.specs.Seats.{IsFresh};
ghost use Rattle.recorder_turns.specs.Steps.{worker as recorder_at};
ghost use Rattle.antenna_turns.specs.Radiating.{worker as antenna_at};
ghost use Rattle.station_run.specs.Workers.{HasEnded, RecordsAt, RadiatesAt, CanServe, HaveServed};

use crate::crew::{AntennaSeat, RecorderSeat};
use crate::workers::{radiate_at, record_at, serve_at};
use antenna_core::Antenna;
use cds_time::Clock;
use disk_model::Disk;
use door_model::Door;
use frame_archive::FrameArchive;
use recorder::FrameSource;
use station_book::Station;
use station_config::Site;
use station_seats::DoorSeat;
use std::alloc::Global;
use std::rt;
use std::sync::Wait;
use std::thread::{Threads, join_mut};

// The antenna's worker beside those of the doors.
fn radiate_and_serve<R: Threads + Wait + rt::Clock + Sync, A: Antenna, G: Door, C: Clock>(
    rt: &R,
    alloc: Global,
    station: &Station,
    seat: &mut AntennaSeat,
    antenna: &mut A,
    antenna_clock: &mut C,
    seats: &mut Vec<DoorSeat>,
    site: &Site,
    doors: &mut [G],
    clocks: &mut [C],
    number: u32,
    links: u32,
    draw: u32,
    turns: u64,
)
    requires turns { 0 < turns }
    requires number { number ≤ station.now.origin.workers }
    requires fresh { IsFresh station.now turns seat.old.pass }
    requires can { CanServe station.now turns seats.old.items doors.old clocks.old }
    requires site { IsSite site.now }
    ensures ended { HasEnded station.now turns seat.new.pass }
    ensures joined { seat.new.pass.joined ≡ [] ∷ [] }
    ensures radiates { RadiatesAt A.sent A.faults C.readings station.now number seat.new.ended
        (antenna_at antenna.old antenna_clock.old seat.old.pass)
        (antenna_at antenna.new antenna_clock.new seat.new.pass) }
    ensures served { HaveServed G.shown G.faults G.Link.calls G.Link.faults C.readings station.now
        site.now draw links seats.old.items seats.new.items doors.old doors.new clocks.old
        clocks.new }
{
    join_mut(
        rt,
        &mut ||
            requires { IsSync R.row × IsFresh station.now turns seat.now.pass × (0 < turns)
                × (number ≤ station.now.origin.workers) }
            ensures ended { HasEnded station.entry.now turns seat.exit.now.pass }
            ensures joined { seat.exit.now.pass.joined ≡ [] ∷ [] }
            ensures radiates { RadiatesAt A.sent A.faults C.readings station.entry.now number
                seat.exit.now.ended
                (antenna_at antenna.entry.now antenna_clock.entry.now seat.entry.now.pass)
                (antenna_at antenna.exit.now antenna_clock.exit.now seat.exit.now.pass) }
        { radiate_at(rt, station, seat, antenna, antenna_clock, number, turns) },
        &mut ||
            requires { IsSync R.row
                × CanServe station.now turns seats.now.items doors.now clocks.now
                × (0 < turns) × IsSite site.now }
            ensures { HaveServed G.shown G.faults G.Link.calls G.Link.faults C.readings
                station.entry.now site.entry.now draw links seats.entry.now.items
                seats.exit.now.items doors.entry.now doors.exit.now clocks.entry.now
                clocks.exit.now }
        {
            serve_at(
                rt, alloc, station, seats, site, doors, clocks, links, draw, turns,
            )
        },
    );
}

// The recorder's worker beside all others.
pub(crate) fn run_crew<
    R: Threads + Wait + rt::Clock + Sync,
    D: Disk,
    F: FrameSource,
    A: Antenna,
    G: Door,
    C: Clock,
>(
    rt: &R,
    alloc: Global,
    station: &Station,
    recorder: &mut RecorderSeat,
    archive: &mut FrameArchive<D>,
    frames: &mut F,
    seat: &mut AntennaSeat,
    antenna: &mut A,
    antenna_clock: &mut C,
    seats: &mut Vec<DoorSeat>,
    site: &Site,
    doors: &mut [G],
    clocks: &mut [C],
    number: u32,
    links: u32,
    draw: u32,
    turns: u64,
)
    requires turns { 0 < turns }
    requires number { number + 1 ≤ station.now.origin.workers }
    requires recorder { IsFresh station.now turns recorder.old.pass }
    requires rests { archive.old.waiting ≡ [] }
    requires opened { archive.old.is_stale ≡ false }
    requires fresh { IsFresh station.now turns seat.old.pass }
    requires can { CanServe station.now turns seats.old.items doors.old clocks.old }
    requires site { IsSite site.now }
    ensures recorded { HasEnded station.now turns recorder.new.pass
        × (recorder.new.pass.joined ≡ []) }
    ensures records { RecordsAt D.pending D.faults D.makes D.fails D.fails_to_read F.answers F.faults
        station.now number recorder.new.ended
        (recorder_at archive.old frames.old recorder.old.pass)
        (recorder_at archive.new frames.new recorder.new.pass) }
    ensures ended { HasEnded station.now turns seat.new.pass
        × (seat.new.pass.joined ≡ [] ∷ []) }
    ensures radiates { RadiatesAt A.sent A.faults C.readings station.now (number + 1)
        seat.new.ended (antenna_at antenna.old antenna_clock.old seat.old.pass)
        (antenna_at antenna.new antenna_clock.new seat.new.pass) }
    ensures served { HaveServed G.shown G.faults G.Link.calls G.Link.faults C.readings station.now
        site.now draw links seats.old.items seats.new.items doors.old doors.new clocks.old
        clocks.new }
{
    let antenna_number = number + 1;
    join_mut(
        rt,
        &mut ||
            requires { IsSync R.row × IsFresh station.now turns recorder.now.pass × (0 < turns)
                × (archive.now.waiting ≡ []) × (archive.now.is_stale ≡ false)
                × (number ≤ station.now.origin.workers) }
            ensures ended { HasEnded station.entry.now turns recorder.exit.now.pass }
            ensures joined { recorder.exit.now.pass.joined ≡ [] }
            ensures records { RecordsAt D.pending D.faults D.makes D.fails D.fails_to_read
                F.answers F.faults station.entry.now number recorder.exit.now.ended
                (recorder_at archive.entry.now frames.entry.now recorder.entry.now.pass)
                (recorder_at archive.exit.now frames.exit.now recorder.exit.now.pass) }
        { record_at(rt, alloc, station, recorder, archive, frames, number, turns) },
        &mut ||
            requires { IsSync R.row × IsFresh station.now turns seat.now.pass × (0 < turns)
                × (antenna_number ≤ station.now.origin.workers)
                × CanServe station.now turns seats.now.items doors.now clocks.now
                × IsSite site.now }
            ensures ended { HasEnded station.entry.now turns seat.exit.now.pass }
            ensures joined { seat.exit.now.pass.joined ≡ [] ∷ [] }
            ensures radiates { RadiatesAt A.sent A.faults C.readings station.entry.now
                antenna_number seat.exit.now.ended
                (antenna_at antenna.entry.now antenna_clock.entry.now seat.entry.now.pass)
                (antenna_at antenna.exit.now antenna_clock.exit.now seat.exit.now.pass) }
            ensures served { HaveServed G.shown G.faults G.Link.calls G.Link.faults C.readings
                station.entry.now site.entry.now draw links seats.entry.now.items
                seats.exit.now.items doors.entry.now doors.exit.now clocks.entry.now
                clocks.exit.now }
        {
            radiate_and_serve(
                rt,
                alloc,
                station,
                seat,
                antenna,
                antenna_clock,
                seats,
                site,
                doors,
                clocks,
                antenna_number,
                links,
                draw,
                turns,
            )
        },
    );
}
