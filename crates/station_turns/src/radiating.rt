// The antenna's worker asks what may radiate, and tells how that ended, in turns.
ghost use Rattle.std.specs.Prelude.{◌≡◌, ◌<◌};
ghost use Rattle.cds_time.specs.declared.cds.TheConstants.{MOMENT_END};
ghost use Rattle.station_book.specs.History.{all_gone};
ghost use Rattle.station_book.specs.Named.{IsMadeBy};
ghost use Rattle.station_book.specs.State.{take as take_call, took, done as done_call};
ghost use Rattle.station_book.specs.State.{interrupted as interrupted_call};
ghost use Rattle.station_turns.specs.Turned.{IsReady, Makes, Takes};

use cltu_queue::Taken;
use station_book::laws::{legal_by, more_by, origin_by};
use station_book::{Book, Event, Station};
use std::sync::Wait;
use turn_lock::Pass;

/// What a take found.
#[derive(Debug, Drop)]
pub struct Taking {
    /// What may radiate.
    pub taken: Taken,
    /// Whether every worker but the antenna's was gone.
    pub all_gone: bool,
}

// Takes what may radiate, and names the call.
fn take_named(book: &mut Book, reading: u128) -> (Taking, Event)
    requires { reading < MOMENT_END }
    ensures made { IsMadeBy (take_call reading) book.old book.new result.1 }
    ensures taken { result.1.reply ≡ took result.0.taken }
    ensures gone { result.0.all_gone ≡ all_gone book.old }
{
    let event = Event::take(book, reading);
    let all_gone = book.all_gone();
    let taken = book.take(reading);
    (Taking { taken, all_gone }, event)
}

/// Asks in a turn of its own what may radiate at a reading of the clock.
pub fn take<R: Wait>(rt: &R, station: &Station, pass: &mut Pass<Event>, reading: u128) -> Taking
    requires ready { IsReady station.now pass.old }
    requires left { 0 < pass.old.left }
    requires reading { reading < MOMENT_END }
    ensures { Takes station.now reading result.taken result.all_gone pass.old pass.new }
{
    let mut turn = station.enter(rt, pass);
    more_by();
    origin_by();
    legal_by();
    let told = take_named(turn.value_mut(), reading);
    station.commit_by(pass, turn, &told.1);
    told.0
}

// Ends a CLTU's radiation, and names the call.
fn done_named(book: &mut Book, run: u64, id: u32, reading: u128) -> Event
    requires { reading < MOMENT_END }
    ensures { IsMadeBy (done_call run id reading) book.old book.new result }
{
    let event = Event::done(book, run, id, reading);
    book.done(run, id, reading);
    event
}

/// Tells in a turn of its own that a run's CLTU was radiated.
pub fn done<R: Wait>(
    rt: &R,
    station: &Station,
    pass: &mut Pass<Event>,
    run: u64,
    id: u32,
    reading: u128,
)
    requires ready { IsReady station.now pass.old }
    requires left { 0 < pass.old.left }
    requires reading { reading < MOMENT_END }
    ensures { Makes station.now (done_call run id reading) pass.old pass.new }
{
    let mut turn = station.enter(rt, pass);
    more_by();
    origin_by();
    legal_by();
    let event = done_named(turn.value_mut(), run, id, reading);
    station.commit_by(pass, turn, &event);
}

// Breaks a CLTU's radiation off, and names the call.
fn interrupted_named(book: &mut Book, run: u64, id: u32, reading: u128) -> Event
    requires { reading < MOMENT_END }
    ensures { IsMadeBy (interrupted_call run id reading) book.old book.new result }
{
    let event = Event::interrupted(book, run, id, reading);
    book.interrupted(run, id, reading);
    event
}

/// Tells in a turn of its own that the radiation of a run's CLTU failed.
pub fn interrupted<R: Wait>(
    rt: &R,
    station: &Station,
    pass: &mut Pass<Event>,
    run: u64,
    id: u32,
    reading: u128,
)
    requires ready { IsReady station.now pass.old }
    requires left { 0 < pass.old.left }
    requires reading { reading < MOMENT_END }
    ensures { Makes station.now (interrupted_call run id reading) pass.old pass.new }
{
    let mut turn = station.enter(rt, pass);
    more_by();
    origin_by();
    legal_by();
    let event = interrupted_named(turn.value_mut(), run, id, reading);
    station.commit_by(pass, turn, &event);
}
