// What a worker has to do.
ghost use Rattle.std.specs.Prelude.{◌≡◌, ◌<◌, IfOk, OnOk, OnErr};
ghost use Rattle.cds_time.specs.declared.cds.TheConstants.{MOMENT_END};
ghost use Rattle.archive_terms.specs.Glimpse.{wants_front};
ghost use Rattle.station_book.specs.State.{publish, answer};
ghost use Rattle.station_book.specs.History.{after, reply_to};
ghost use Rattle.sample_book.specs.Jobs.{outcome_of};

use frame_select::Want;
use octet_core::Memory;
use record_form::Entries;
use station_book::{Ask, Book, BookReply, Event, PublishFault};

/// A job of a worker.
#[derive(Drop)]
pub enum Job {
    /// To publish entries.
    Publish {
        /// The entries.
        entries: Entries,
    },
    /// To ask something.
    Ask {
        /// What the worker's door asks.
        ask: Ask,
    },
}

/// What came of a job.
#[derive(Clone, Copy, Debug, PartialEq, Eq)]
pub enum Outcome {
    /// The entries are published.
    Published,
    /// They don't follow the published ones.
    Foreign,
    /// The book's reply.
    Replied {
        /// The reply.
        reply: BookReply,
    },
}

impl Job {
    ghost use Rattle.station_book.specs.History.{after, event_at};
    ghost use Rattle.sample_book.specs.Jobs.{call_of, outcome_of};

    /// Makes the job's call of the book, and names it.
    pub fn run(self, book: &mut Book, door: u32, reading: u128) -> (Result<Outcome, Memory>, Event)
        requires { reading < MOMENT_END }
        ensures event { result.1 ≡ event_at book.old (call_of door reading self) }
        ensures after { OnOk result.0 (book.new ≡ after book.old (call_of door reading self)) }
        ensures outcome { IfOk result.0 (λ outcome. outcome ≡ outcome_of result.1.reply) }
        ensures err { OnErr result.0 (book.new ≡ book.old) }
    {
        match self {
            Job::Publish { entries } => {
                let event = Event::publish(book, &entries);
                (publish(book, entries), event)
            }
            Job::Ask { ask } => {
                let event = Event::answer(book, door, reading, &ask, &Want::Front);
                (answer(book, door, reading, &ask), event)
            }
        }
    }
}

// Publishes entries.
fn publish(book: &mut Book, entries: Entries) -> Result<Outcome, Memory>
    ensures after { OnOk result (book.new ≡ after book.old (publish entries)) }
    ensures outcome { IfOk result (λ outcome. outcome
        ≡ outcome_of (reply_to book.old (publish entries))) }
    ensures err { OnErr result (book.new ≡ book.old) }
{
    match book.publish(entries) {
        Ok(()) => Ok(Outcome::Published),
        Err((PublishFault::Foreign, _)) => Ok(Outcome::Foreign),
        Err((PublishFault::Memory, _)) => Err(Memory),
    }
}

// Has an ask answered.
fn answer(book: &mut Book, door: u32, reading: u128, ask: &Ask) -> Result<Outcome, Memory>
    requires { reading < MOMENT_END }
    ensures after { OnOk result (book.new ≡ after book.old
        (answer door reading ask.now wants_front)) }
    ensures outcome { IfOk result (λ outcome. outcome
        ≡ outcome_of (reply_to book.old (answer door reading ask.now wants_front))) }
    ensures err { OnErr result (book.new ≡ book.old) }
{
    let (reply, _, _) = book.answer(door, reading, ask, &Want::Front)?;
    Ok(Outcome::Replied { reply })
}
