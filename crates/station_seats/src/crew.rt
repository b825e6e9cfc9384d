// The passes of a station's workers: all are split before the first worker starts, and joined after
// the last one has returned.
ghost use Rattle.std.specs.Prelude.{◌≡◌, ◌+◌, ◌*◌, ◌≤◌, ◌++◌, ◌∷◌, length, vec_len, vec_capacity};
ghost use Rattle.std.specs.Prelude.{All, IfOk, []};
ghost use Rattle.station_book.specs.History.{StandsAs};
ghost use Rattle.turn_lock.specs.Own.{MakeUp};
ghost use Rattle.station_turns.specs.Turned.{IsReady};
ghost use Rattle.station_seats.specs.Seats.{IsFresh, IsMain, IsSingle, owns_of, reports_of, turns_of};

use crate::report::DoorReport;
use crate::seat::DoorSeat;
use octet_core::Memory;
use station_book::{Book, Event, Station};
use std::alloc::Global;
use turn_lock::Pass;

/// A pass with so many turns of this one.
pub fn split_off(station: &Station, pass: &mut Pass<Event>, turns: u64) -> Pass<Event>
    requires main { IsMain station.now pass.old }
    requires turns { turns ≤ pass.old.left }
    ensures main { IsMain station.now pass.new }
    ensures left { pass.new.left + turns ≡ pass.old.left }
    ensures fresh { IsFresh station.now turns result }
{
    let Ok(other) = station.split(pass, turns) else {
        unreachable!()
    };
    other
}

/// Seats for so many doors, each with so many turns of the pass.
pub fn seat_all(
    alloc: Global,
    station: &Station,
    pass: &mut Pass<Event>,
    count: usize,
    turns: u64,
) -> Result<Vec<DoorSeat>, Memory>
    requires main { IsMain station.now pass.old }
    requires few { count ≤ 16 }
    requires turns { count * turns ≤ pass.old.left }
    ensures main { IsMain station.now pass.new }
    ensures left { IfOk result (λ seats. pass.new.left + count * turns ≡ pass.old.left) }
    ensures seats { IfOk result (λ seats. (vec_len seats ≡ count)
        × All (λ seat. IsFresh station.now turns seat.pass) seats.items) }
{
    let mut seats = Vec::with_capacity(alloc, count)?;
    for _place in 0..count {
        let report = DoorReport::none();
        let pass = split_off(station, pass, turns);
        seats.push_reserved(DoorSeat { pass, report });
    }
    Ok(seats)
}

/// Joins the passes of all seats into one, the first one first, and gathers their reports.
pub fn gather(
    station: &Station,
    pass: &mut Pass<Event>,
    seats: Vec<DoorSeat>,
    reports: &mut Vec<DoorReport>,
)
    requires ready { IsReady station.now pass.old }
    requires single { All (IsSingle station.now) seats.items }
    requires room { vec_len reports.old + vec_len seats ≤ vec_capacity reports.old }
    ensures ready { IsReady station.now pass.new }
    ensures own { pass.new.own ≡ pass.old.own }
    ensures joined { pass.new.joined ≡ pass.old.joined ++ owns_of seats.items }
    ensures turns { pass.new.left + pass.new.entered
        ≡ pass.old.left + pass.old.entered + turns_of seats.items }
    ensures reports { reports.new.items ≡ reports.old.items ++ reports_of seats.items }
{
    for seat in seats {
        station.join(pass, seat.pass);
        reports.push_reserved(seat.report);
    }
}

/// Joins the passes of all workers into the one that they were split from: the recorder's, the
/// antenna's, and those of the doors. The antenna's has one joined into it, which entered no turn.
pub fn join_crew(
    station: &Station,
    pass: &mut Pass<Event>,
    recorder: Pass<Event>,
    radiator: Pass<Event>,
    seats: Vec<DoorSeat>,
    reports: &mut Vec<DoorReport>,
)
    requires main { IsMain station.now pass.old }
    requires recorder { IsReady station.now recorder × (recorder.joined ≡ []) }
    requires radiator { IsReady station.now radiator × (radiator.joined ≡ [] ∷ []) }
    requires single { All (IsSingle station.now) seats.items }
    requires room { (reports.old.items ≡ []) × (vec_len seats ≤ vec_capacity reports.old) }
    ensures ready { IsReady station.now pass.new }
    ensures own { pass.new.own ≡ [] }
    ensures joined { pass.new.joined
        ≡ recorder.own ∷ radiator.own ∷ [] ∷ owns_of seats.items }
    ensures turns { pass.new.left + pass.new.entered ≡ pass.old.left
        + (recorder.left + recorder.entered) + (radiator.left + radiator.entered)
        + turns_of seats.items }
    ensures reports { reports.new.items ≡ reports_of seats.items }
{
    station.join(pass, recorder);
    station.join(pass, radiator);
    gather(station, pass, seats, reports);
}

/// Closes the lock once all passes were joined.
pub fn close(station: Station, pass: Pass<Event>) -> (Book, Pass<Event>)
    requires ready { IsReady station pass }
    requires whole { pass.left + pass.entered ≡ station.turns }
    ensures lists { (result.1.own ≡ pass.own) × (result.1.joined ≡ pass.joined) }
    ensures origin { result.0.opening ≡ station.origin }
    ensures stands { StandsAs result.0 result.1.seen }
    ensures make_up { MakeUp result.1.seen (result.1.own ∷ result.1.joined) }
{
    let Ok(closed) = station.close(pass) else {
        unreachable!()
    };
    closed
}
