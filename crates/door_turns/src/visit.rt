// A visit of a door's worker at its door.
ghost use Rattle.std.specs.Prelude.{◌≡◌, ◌≤◌, true};
ghost use Rattle.door_model.specs.Shown.{IsFresh};
ghost use Rattle.station_config.specs.Validity.{IsSite};
ghost use Rattle.station_turns.specs.Turned.{IsReady};
ghost use Rattle.door_turns.specs.Visits.{Came, ServesGiven, at_door, visit_of};

use crate::served::served_as;
use cds_time::Clock;
use door_model::Door;
use octet_core::Failed;
use session_core::Ended;
use session_turns::{ServeFault, serve};
use station_book::{Event, Station};
use station_config::Site;
use std::alloc::Global;
use std::sync::Wait;
use turn_lock::Pass;

/// What a visit at a door comes to.
#[derive(Clone, Copy, Debug, PartialEq, Eq)]
pub enum Visit {
    /// A link was served.
    Served,
    /// A link was served until the turns were spent.
    Spent,
    /// A link was served until memory was wanted.
    Memory,
    /// No further link comes.
    NoMore,
    /// The door failed.
    Failed,
}

// What a visit comes to whose link was served so.
fn visit_as(answer: &Result<Ended, ServeFault>) -> Visit
    ensures { result ≡ visit_of answer.now }
{
    match answer {
        Ok(_) | Err(ServeFault::LinkFault) => Visit::Served,
        Err(ServeFault::TurnsSpent) => Visit::Spent,
        Err(ServeFault::Memory) => Visit::Memory,
    }
}

// Serves a link that the door has given, and gives it back.
fn serve_given<R: Wait, G: Door, C: Clock>(
    rt: &R,
    alloc: Global,
    station: &Station,
    pass: &mut Pass<Event>,
    site: &Site,
    door: &mut G,
    clock: &mut C,
    number: u32,
    draw: u32,
    mut link: G::Link,
) -> Visit
    requires ready { IsReady station.now pass.old }
    requires left { 3 ≤ pass.old.left }
    requires site { IsSite site.now }
    requires out { G.is_out door.old ≡ true }
    ensures ready { IsReady station.now pass.new }
    ensures left { 1 ≤ pass.new.left }
    ensures served { ServesGiven G.shown G.faults G.Link.calls G.Link.faults C.readings station.now
        site.now number draw link result (at_door door.old clock.old pass.old)
        (at_door door.new clock.new pass.new) }
{
    let answer = serve(
        rt, alloc, station, pass, site, number, draw, &mut link, clock,
    );
    door.give_back(link, served_as(&answer));
    visit_as(&answer)
}

// Waits for the door's next link, serves it and gives it back.
pub(crate) fn make_visit<R: Wait, G: Door, C: Clock>(
    rt: &R,
    alloc: Global,
    station: &Station,
    pass: &mut Pass<Event>,
    site: &Site,
    door: &mut G,
    clock: &mut C,
    number: u32,
    draw: u32,
) -> Visit
    requires ready { IsReady station.now pass.old }
    requires left { 3 ≤ pass.old.left }
    requires site { IsSite site.now }
    ensures ready { IsReady station.now pass.new }
    ensures left { 1 ≤ pass.new.left }
    ensures came { Came G.shown G.faults G.Link.calls G.Link.faults C.readings station.now
        site.now number draw result (at_door door.old clock.old pass.old)
        (at_door door.new clock.new pass.new) }
{
    match door.next_link() {
        Ok(Some(link)) => serve_given(
            rt, alloc, station, pass, site, door, clock, number, draw, link,
        ),
        Ok(None) => Visit::NoMore,
        Err(Failed) => Visit::Failed,
    }
}
