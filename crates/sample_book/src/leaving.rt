// The end of a door, under the lock, and what doors were told.
ghost use Rattle.std.specs.Prelude.{◌≡◌, ◌+◌, ◌<◌, Some, IsTrue, List, ◌∷◌, ◌++◌, [], ℕ};
ghost use Rattle.turn_lock.specs.declared.pass.Standing.TheVariants.{Ready};
ghost use Rattle.station_book.specs.State.{opened, quit, Event};
ghost use Rattle.station_book.specs.History.{IsLegal, StandsAs, replay};
ghost use Rattle.station_book.specs.Doors.{HasOneForward};
ghost use Rattle.station_book.specs.Named.{IsMadeBy};
ghost use Rattle.station_book.specs.Notices.{door_of_run, are_before_stop, IsToldInTurn};

use crate::work::Shared;
use station_book::laws::{legal_by, more_by, notices_are_told_in_turn, origin_by};
use station_book::{Book, Event, Station};
use std::sync::Wait;
use turn_lock::Pass;

// Frees a door's instance, and names the call.
fn quit(book: &mut Book, door: u32) -> Event
    ensures { IsMadeBy (quit door) book.old book.new result }
{
    let event = Event::quit(book, door);
    book.quit(door);
    event
}

/// Frees a door's instance in a turn of its own. Which call it makes is known, so that the laws on
/// a call that is named are what commits it.
pub fn leave<R: Wait>(rt: &R, station: &Station, pass: &mut Pass<Event>, door: u32)
    requires lock { pass.old.lock ≡ Some station.now }
    requires ready { (pass.old.standing ≡ Ready) × (0 < pass.old.left) }
    ensures ready { (pass.new.lock ≡ pass.old.lock) × (pass.new.standing ≡ Ready)
        × (pass.new.joined ≡ pass.old.joined) }
    ensures turns { (pass.new.left + 1 ≡ pass.old.left)
        × (pass.new.entered ≡ pass.old.entered + 1) }
    ensures legal { IsLegal (opened station.now.origin) pass.new.seen }
{
    let mut turn = station.enter(rt, pass);
    more_by();
    origin_by();
    legal_by();
    let event = quit(turn.value_mut(), door);
    station.commit_by(pass, turn, &event);
}

/// In whatever history the book of a closed lock stands for, each run's door was told its notices
/// in turn.
pub fn told_in_turn(shared: &Shared)
    requires one { HasOneForward shared.now.book.opening.services }
    ensures { (h k : List Event) (e : Event) (door : ℕ) → StandsAs shared.now.book (h ++ e ∷ k)
        → door_of_run e ≡ Some door → IsTrue (are_before_stop door k)
        → IsToldInTurn (replay (opened shared.now.book.opening) (h ++ e ∷ [])) door k }
{
    notices_are_told_in_turn();
}
