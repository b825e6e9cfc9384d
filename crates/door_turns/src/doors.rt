// The workers of doors, all at once.
ghost use Rattle.std.specs.Prelude.{◌≡◌, ◌+◌, ◌<◌, ◌≤◌, length, All};
ghost use Rattle.std.specs.Thread.{IsSync};
ghost use Rattle.station_config.specs.Validity.{IsSite};
ghost use Rattle.station_seats.specs.Seats.{IsSeated};
ghost use Rattle.door_turns.specs.Doors.{EachWorks, WorksAt};

use crate::worker::serve_door;
use cds_time::Clock;
use door_model::Door;
use station_book::Station;
use station_config::Site;
use station_seats::DoorSeat;
use std::alloc::Global;
use std::sync::Wait;
use std::thread::{Threads, join_mut};

// A door's worker at its seat, into which its report is written.
fn serve_seat<R: Wait, G: Door, C: Clock>(
    rt: &R,
    alloc: Global,
    station: &Station,
    seat: &mut DoorSeat,
    site: &Site,
    door: &mut G,
    clock: &mut C,
    number: u32,
    links: u32,
    draw: u32,
)
    requires seated { IsSeated station.now seat.old }
    requires site { IsSite site.now }
    requires number { number < station.now.origin.workers }
    ensures { WorksAt G.shown G.faults G.Link.calls G.Link.faults C.readings station.now
        site.now draw links number seat.old seat.new door.old door.new clock.old clock.new }
{
    seat.report = serve_door(
        rt,
        alloc,
        station,
        &mut seat.pass,
        site,
        door,
        clock,
        number,
        links,
        draw,
    );
}

// The workers of two rows of doors, all at once.
#[cycle(halves)]
fn serve_halves<R: Threads + Wait + Sync, G: Door, C: Clock>(
    rt: &R,
    alloc: Global,
    station: &Station,
    front_seats: &mut [DoorSeat],
    back_seats: &mut [DoorSeat],
    site: &Site,
    front_doors: &mut [G],
    back_doors: &mut [G],
    front_clocks: &mut [C],
    back_clocks: &mut [C],
    first: u32,
    middle: u32,
    links: u32,
    draw: u32,
)
    requires front { (length front_doors.old ≡ length front_seats.old)
        × (length front_clocks.old ≡ length front_seats.old) × (1 ≤ length front_seats.old)
        × (first + length front_seats.old ≤ station.now.origin.workers) }
    requires back { (length back_doors.old ≡ length back_seats.old)
        × (length back_clocks.old ≡ length back_seats.old) × (1 ≤ length back_seats.old)
        × (middle + length back_seats.old ≤ station.now.origin.workers) }
    requires few { station.now.origin.workers ≤ 31 }
    requires seated { All (λ seat. IsSeated station.now seat) front_seats.old
        × All (λ seat. IsSeated station.now seat) back_seats.old }
    requires site { IsSite site.now }
    ensures front { EachWorks G.shown G.faults G.Link.calls G.Link.faults C.readings station.now
        site.now draw links first front_seats.old front_seats.new front_doors.old front_doors.new
        front_clocks.old front_clocks.new }
    ensures back { EachWorks G.shown G.faults G.Link.calls G.Link.faults C.readings station.now
        site.now draw links middle back_seats.old back_seats.new back_doors.old back_doors.new
        back_clocks.old back_clocks.new }
{
    join_mut(
        rt,
        &mut ||
            requires { IsSync R.row × (length front_doors.now ≡ length front_seats.now)
                × (length front_clocks.now ≡ length front_seats.now)
                × (1 ≤ length front_seats.now)
                × (first + length front_seats.now ≤ station.now.origin.workers)
                × (station.now.origin.workers ≤ 31)
                × All (λ seat. IsSeated station.now seat) front_seats.now × IsSite site.now }
            ensures { EachWorks G.shown G.faults G.Link.calls G.Link.faults C.readings
                station.entry.now site.entry.now draw links first front_seats.entry.now
                front_seats.exit.now front_doors.entry.now front_doors.exit.now
                front_clocks.entry.now front_clocks.exit.now }
        {
            serve_doors(
                rt,
                alloc,
                station,
                front_seats,
                site,
                front_doors,
                front_clocks,
                first,
                links,
                draw,
            )
        },
        &mut ||
            requires { IsSync R.row × (length back_doors.now ≡ length back_seats.now)
                × (length back_clocks.now ≡ length back_seats.now)
                × (1 ≤ length back_seats.now)
                × (middle + length back_seats.now ≤ station.now.origin.workers)
                × (station.now.origin.workers ≤ 31)
                × All (λ seat. IsSeated station.now seat) back_seats.now × IsSite site.now }
            ensures { EachWorks G.shown G.faults G.Link.calls G.Link.faults C.readings
                station.entry.now site.entry.now draw links middle back_seats.entry.now
                back_seats.exit.now back_doors.entry.now back_doors.exit.now
                back_clocks.entry.now back_clocks.exit.now }
        {
            serve_doors(
                rt,
                alloc,
                station,
                back_seats,
                site,
                back_doors,
                back_clocks,
                middle,
                links,
                draw,
            )
        },
    );
}

/// A worker for each door, all at once, each at the seat and with the clock at the door's place. The
/// door at place k is the one of the number `first + k`, and its report is written into its seat.
#[cycle(halves)]
pub fn serve_doors<R: Threads + Wait + Sync, G: Door, C: Clock>(
    rt: &R,
    alloc: Global,
    station: &Station,
    seats: &mut [DoorSeat],
    site: &Site,
    doors: &mut [G],
    clocks: &mut [C],
    first: u32,
    links: u32,
    draw: u32,
)
    requires same { (length doors.old ≡ length seats.old) × (length clocks.old ≡ length seats.old) }
    requires some { 1 ≤ length seats.old }
    requires numbers { (first + length seats.old ≤ station.now.origin.workers)
        × (station.now.origin.workers ≤ 31) }
    requires seated { All (λ seat. IsSeated station.now seat) seats.old }
    requires site { IsSite site.now }
    ensures { EachWorks G.shown G.faults G.Link.calls G.Link.faults C.readings station.now site.now
        draw links first seats.old seats.new doors.old doors.new clocks.old clocks.new }
{
    if seats.len() == 1 {
        serve_seat(
            rt,
            alloc,
            station,
            &mut seats[0],
            site,
            &mut doors[0],
            &mut clocks[0],
            first,
            links,
            draw,
        );
        return;
    }
    let half = seats.len() / 2;
    let middle = first + half as u32;
    let (front_seats, back_seats) = seats.split_at_mut(half);
    let (front_doors, back_doors) = doors.split_at_mut(half);
    let (front_clocks, back_clocks) = clocks.split_at_mut(half);
    serve_halves(
        rt,
        alloc,
        station,
        front_seats,
        back_seats,
        site,
        front_doors,
        back_doors,
        front_clocks,
        back_clocks,
        first,
        middle,
        links,
        draw,
    );
}
