// The events of a book's history, and its origin.
ghost use Rattle.std.specs.Prelude.{◌≡◌};
ghost use Rattle.frame_select.specs.Want.{want_of};

use crate::book::Book;
use cltu_queue::Ask;
use fcltu_numbers::{CltuProductionStatus, UplinkStatus};
use frame_select::Want;
use record_form::Entries;
use std::marker::Model;
use std::snapshot::Snapshot;
use turn_lock::{HistoryEvent, Names, StandsFor, Turns};

/// What a book was opened with, as contracts see it. It has no octets.
#[derive(Drop)]
pub struct Opening {
    book: Snapshot<Book>,
}

impl Model for Opening {
    ghost use Rattle.station_book.specs.State.{Opening};

    ghost Value = { Opening };

    ghost view = { λ o. o.book.value.opening };
}

// A call, without the octets of what it was given.
#[derive(Drop)]
pub(crate) enum Called {
    Publish {
        entries: Snapshot<Entries>,
    },
    Answer {
        door: u32,
        reading: u128,
        ask: Snapshot<Ask>,
        want: Want,
    },
    Quit {
        door: u32,
    },
    Take {
        reading: u128,
    },
    Done {
        run: u64,
        id: u32,
        reading: u128,
    },
    Interrupted {
        run: u64,
        id: u32,
        reading: u128,
    },
    Uplink {
        production: CltuProductionStatus,
        status: UplinkStatus,
        reading: u128,
    },
    Gone {
        worker: u32,
    },
}

/// One call of a book, named by what determines it: what the book was before, and what it was
/// asked. Contracts see it with its moment and its whole reply. It has no octets.
#[derive(Drop)]
pub struct Event {
    before: Snapshot<Book>,
    call: Snapshot<Called>,
}

impl Model for Event {
    ghost use Rattle.station_book.specs.State.{Event};
    ghost use Rattle.station_book.specs.History.{event_at};

    ghost Value = { Event };

    ghost use Rattle.station_book.specs.Called.{call_of};

    ghost view = { λ e. event_at e.before.value (call_of e.call.value) };
}

impl HistoryEvent for Event {
    type Origin = Opening;
}

impl Names<Event> for Event {
    ghost named = { λ e. e };
}

impl StandsFor<Event> for Book {
    ghost use Rattle.station_book.specs.History.{StandsAs};

    ghost origin = { λ b. b.opening };

    ghost stands = { StandsAs };
}

/// The lock over a station's book.
pub type Station = Turns<Book, Event>;

impl Event {
    ghost use Rattle.station_book.specs.State.{publish, answer, quit, take, done, interrupted};
    ghost use Rattle.station_book.specs.State.{uplink, gone};
    ghost use Rattle.station_book.specs.History.{event_at};
    ghost use Rattle.station_book.specs.Called.{call_of};

    // The event of a call of this book.
    fn of(book: &Book, call: &Called) -> Event
        ensures { result ≡ event_at book.now (call_of call.now) }
    {
        Event {
            before: Snapshot::of(book),
            call: Snapshot::of(call),
        }
    }

    /// The event of `publish`, called now.
    pub fn publish(book: &Book, entries: &Entries) -> Event
        ensures { result ≡ event_at book.now (publish entries.now) }
    {
        Event::of(
            book,
            &Called::Publish {
                entries: Snapshot::of(entries),
            },
        )
    }

    /// The event of `answer`, called now.
    pub fn answer(book: &Book, door: u32, reading: u128, ask: &Ask, want: &Want) -> Event
        ensures { result ≡ event_at book.now (answer door reading ask.now (want_of want.now)) }
    {
        Event::of(
            book,
            &Called::Answer {
                door,
                reading,
                ask: Snapshot::of(ask),
                want: *want,
            },
        )
    }

    /// The event of `quit`, called now.
    pub fn quit(book: &Book, door: u32) -> Event
        ensures { result ≡ event_at book.now (quit door) }
    {
        Event::of(book, &Called::Quit { door })
    }

    /// The event of `take`, called now.
    pub fn take(book: &Book, reading: u128) -> Event
        ensures { result ≡ event_at book.now (take reading) }
    {
        Event::of(book, &Called::Take { reading })
    }

    /// The event of `done`, called now.
    pub fn done(book: &Book, run: u64, id: u32, reading: u128) -> Event
        ensures { result ≡ event_at book.now (done run id reading) }
    {
        Event::of(book, &Called::Done { run, id, reading })
    }

    /// The event of `interrupted`, called now.
    pub fn interrupted(book: &Book, run: u64, id: u32, reading: u128) -> Event
        ensures { result ≡ event_at book.now (interrupted run id reading) }
    {
        Event::of(book, &Called::Interrupted { run, id, reading })
    }

    /// The event of `uplink`, called now.
    pub fn uplink(
        book: &Book,
        production: CltuProductionStatus,
        status: UplinkStatus,
        reading: u128,
    ) -> Event
        ensures { result ≡ event_at book.now (uplink production status reading) }
    {
        Event::of(
            book,
            &Called::Uplink {
                production,
                status,
                reading,
            },
        )
    }

    /// The event of `gone`, called now.
    pub fn gone(book: &Book, worker: u32) -> Event
        ensures { result ≡ event_at book.now (gone worker) }
    {
        Event::of(book, &Called::Gone { worker })
    }
}
