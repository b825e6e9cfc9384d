// The worker of a connection.
ghost use Rattle.std.specs.Prelude.{◌≡◌, ◌<◌, ◌≤◌};
ghost use Rattle.station_config.specs.Validity.{IsSite};
ghost use Rattle.station_turns.specs.Turned.{IsReady};
ghost use Rattle.session_turns.specs.Rounds.{worker};
ghost use Rattle.session_turns.specs.Serving.{Serves, Served};

use crate::rounds::rounds;
use crate::serve_fault::ServeFault;
use cds_time::Clock;
use link_model::Link;
use octet_core::Memory;
use session_core::{Ended, Session};
use station_book::{Event, Station};
use station_config::Site;
use station_turns::laws::{gains_compose, readings_compose};
use station_turns::{quit, read};
use std::alloc::Global;
use std::sync::Wait;
use turn_lock::Pass;

// A session from its beginning to its end.
fn serve_session<R: Wait, L: Link, C: Clock>(
    rt: &R,
    alloc: Global,
    station: &Station,
    pass: &mut Pass<Event>,
    site: &Site,
    door: u32,
    draw: u32,
    link: &mut L,
    clock: &mut C,
) -> Result<Ended, ServeFault>
    requires ready { IsReady station.now pass.old }
    requires left { 3 ≤ pass.old.left }
    requires site { IsSite site.now }
    ensures ready { IsReady station.now pass.new }
    ensures left { 2 ≤ pass.new.left }
    ensures served { Served L.calls L.faults C.readings station.now site.now door draw result
        (worker link.old clock.old pass.old) (worker link.new clock.new pass.new) }
{
    gains_compose();
    readings_compose();
    let entered = read(clock);
    match Session::new(alloc, door, draw, entered) {
        Ok(mut session) => rounds(rt, station, pass, site, &mut session, link, clock),
        Err(Memory) => Err(ServeFault::Memory),
    }
}

/// Serves a connection from its context to its end, one turn a round, and then quits its door in a
/// turn, whatever it answers. The session begins at the clock's first reading; a round reads the
/// clock between its calls of the link. It doesn't sleep: the link's poll waits.
pub fn serve<R: Wait, L: Link, C: Clock>(
    rt: &R,
    alloc: Global,
    station: &Station,
    pass: &mut Pass<Event>,
    site: &Site,
    door: u32,
    draw: u32,
    link: &mut L,
    clock: &mut C,
) -> Result<Ended, ServeFault>
    requires ready { IsReady station.now pass.old }
    requires left { 3 ≤ pass.old.left }
    requires site { IsSite site.now }
    ensures ready { IsReady station.now pass.new }
    ensures left { 1 ≤ pass.new.left }
    ensures serves { Serves L.calls L.faults C.readings station.now site.now door draw result
        (worker link.old clock.old pass.old) (worker link.new clock.new pass.new) }
{
    gains_compose();
    let answer = serve_session(rt, alloc, station, pass, site, door, draw, link, clock);
    quit(rt, station, pass, door);
    answer
}
