// What holds of every connection of a script, as the contract of a function that does nothing.
ghost use Rattle.std.specs.Prelude.{Some};
ghost use Rattle.drill_text.specs.Reading.{reading};
ghost use Rattle.drill_text.specs.declared.script_line.ScriptLine.{ScriptLine};
ghost use Rattle.station_law.specs.EntriesFacts.{Grows};
ghost use Rattle.connection_laws.specs.Delivered.{AreDelivered};
ghost use Rattle.connection_laws.specs.Lossless.{AreLossless};
ghost use Rattle.connection_laws.specs.Laws.{Laws};

use archive_terms::laws::archive_grows;
use session_laws::laws::{
    a_door_begins_free, each_start_hands_over, nothing_is_lost, only_a_started_service_sends,
    what_a_session_sees_is_published,
};
use station_book::laws::{a_door_has_one_instance, other_doors_leave_a_door};
use station_law::laws::{connections_are_sessions, the_book_has_what_is_stored};

/// Where at most one instance of the site is the forward service's: a connection that is opened at a
/// free door, after any lines of a script, in order or not, is never answered Lost by the book, over
/// any later lines. So it doesn't end with `aborted 127`.
pub fn connections_lose_nothing()
    ensures lines { AreLossless (λ (line : ScriptLine). Some line) }
    ensures texts { AreLossless reading }
{
    rests_on();
    connections_are_sessions();
}

/// What each START on a connection was handed, over any lines after the one that opens the
/// connection, is what *Delivery* of it hands over of the archive: of what is stored after these
/// lines, or after any more, a power failure among them, and of each archive that begins so. And
/// nothing of a service was handed over but in rounds that a started one served.
pub fn each_start_is_delivered()
    ensures { AreDelivered reading }
{
    archives_grow();
    connections_are_sessions();
    the_book_has_what_is_stored();
    what_a_session_sees_is_published();
    each_start_hands_over();
    only_a_started_service_sends();
}

// An archive grows by an entry that may follow.
fn archives_grow()
    ensures { Grows }
{
    archive_grows();
}

// The laws of sessions and of books.
fn rests_on()
    ensures { Laws }
{
    nothing_is_lost();
    a_door_begins_free();
    a_door_has_one_instance();
    other_doors_leave_a_door();
}
