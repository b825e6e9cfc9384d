// A door's session and a worker end, in turns.
ghost use Rattle.std.specs.Prelude.{◌<◌, ◌≤◌};
ghost use Rattle.station_book.specs.Named.{IsMadeBy};
ghost use Rattle.station_book.specs.State.{quit as quit_call, gone as gone_call};
ghost use Rattle.station_turns.specs.Turned.{IsReady, Makes};

use station_book::laws::{legal_by, more_by, origin_by};
use station_book::{Book, Event, Station};
use std::sync::Wait;
use turn_lock::Pass;

// Frees what a door has bound, and names the call.
fn quit_named(book: &mut Book, door: u32) -> Event
    ensures { IsMadeBy (quit_call door) book.old book.new result }
{
    let event = Event::quit(book, door);
    book.quit(door);
    event
}

/// Frees in a turn of its own what a door has bound, and stops its run.
pub fn quit<R: Wait>(rt: &R, station: &Station, pass: &mut Pass<Event>, door: u32)
    requires ready { IsReady station.now pass.old }
    requires left { 0 < pass.old.left }
    ensures { Makes station.now (quit_call door) pass.old pass.new }
{
    let mut turn = station.enter(rt, pass);
    more_by();
    origin_by();
    legal_by();
    let event = quit_named(turn.value_mut(), door);
    station.commit_by(pass, turn, &event);
}

// Tells that a worker has ended, and names the call.
fn gone_named(book: &mut Book, worker: u32) -> Event
    requires { worker ≤ book.old.opening.workers }
    ensures { IsMadeBy (gone_call worker) book.old book.new result }
{
    let event = Event::gone(book, worker);
    book.gone(worker);
    event
}

/// Tells in a turn of its own that a worker has ended.
pub fn gone<R: Wait>(rt: &R, station: &Station, pass: &mut Pass<Event>, worker: u32)
    requires ready { IsReady station.now pass.old }
    requires left { 0 < pass.old.left }
    requires worker { worker ≤ station.now.origin.workers }
    ensures { Makes station.now (gone_call worker) pass.old pass.new }
{
    let mut turn = station.enter(rt, pass);
    more_by();
    origin_by();
    legal_by();
    let event = gone_named(turn.value_mut(), worker);
    station.commit_by(pass, turn, &event);
}
