// What a session asks of the book in a turn, named by what determines it.
ghost use Rattle.std.specs.Prelude.{◌≡◌};
ghost use Rattle.session_turns.specs.Stepping.{event_now};

use session_core::Session;
use station_book::{Book, Event};
use station_config::Site;
use std::marker::Model;
use std::snapshot::Snapshot;
use turn_lock::Names;

// The answer event of a session's step, as contracts see it. It has no octets but those of the
// reading.
#[derive(Drop)]
pub(crate) struct Asked {
    session: Snapshot<Session>,
    site: Snapshot<Site>,
    book: Snapshot<Book>,
    reading: u128,
}

impl Model for Asked {
    ghost use Rattle.station_book.specs.State.{Event};
    ghost use Rattle.session_turns.specs.Stepping.{event_now};

    ghost Value = { Event };

    ghost view = { λ a. event_now a.site.value a.session.value a.book.value a.reading };
}

impl Names<Event> for Asked {
    ghost named = { λ a. a };
}

impl Asked {
    // The event of this session's step, made now.
    pub fn of(session: &Session, site: &Site, book: &Book, reading: u128) -> Asked
        ensures { result ≡ event_now site.now session.now book.now reading }
    {
        Asked {
            session: Snapshot::of(session),
            site: Snapshot::of(site),
            book: Snapshot::of(book),
            reading,
        }
    }
}
