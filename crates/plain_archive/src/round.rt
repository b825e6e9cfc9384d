// What a round of a session does to a delivery, by its link.
ghost use Rattle.std.specs.Prelude.{◌≡◌, ◌+◌, ◌^◌, ◌<◌, List, take};
ghost use Rattle.archive_terms.specs.Archive.{Entry};
ghost use Rattle.archive_terms.specs.Selection.{is_stop_closed};
ghost use Rattle.archive_terms.specs.Delivery.{Mode, is_timely, Terms, stepped, released};
ghost use Rattle.archive_terms.specs.Delivery.{taken_whole, stalled};
ghost use Rattle.archive_terms.specs.Rounds.{Round, picked_at, after_round, answered};
ghost use Rattle.plain_archive.specs.Plain.{answer_of, link_of, delivery_of};

/// The answers of a link to an offer.
#[derive(Clone, Copy, Debug, PartialEq, Eq)]
pub enum Answer {
    /// It took all octets.
    Whole,
    /// It took none.
    Stalled,
    /// It failed.
    Failed,
}

/// What a round finds on its link.
#[derive(Clone, Copy, Debug, PartialEq, Eq)]
pub enum Link {
    /// A block of an earlier round waits still.
    Blocked,
    /// A block of this round waits.
    Waiting,
    /// No block waits; a buffer that is offered gets this answer.
    Free(Answer),
    /// It failed before a buffer was offered.
    Broken,
}

/// What stands first in a held buffer, where it is no picked entry.
#[derive(Clone, Copy, Debug, PartialEq, Eq)]
pub enum Head {
    /// The notice that data was discarded due to excessive backlog.
    Backlog,
    /// The notice of end of data.
    EndOfData,
}

/// A delivery, counted in the picked entries.
#[derive(Clone, Copy, Debug, PartialEq, Eq)]
pub struct Delivery {
    /// How many picked entries are settled.
    pub settled: u64,
    /// How many are held after them.
    pub held: u32,
    /// What heads the held buffer.
    pub head: Option<Head>,
    /// Whether a backlog is to be told.
    pub owed: bool,
    /// Whether the buffer stays as it is until it is taken.
    pub fixed: bool,
    /// The moment at which the first item was put, in picoseconds.
    pub since: u128,
    /// Whether end of data was handed over.
    pub ended: bool,
}

/// The delivery after a round that began with `before`, and whose step leads to `next`.
pub fn after_round(timely: bool, link: Link, before: &Delivery, next: &Delivery) -> Delivery
    requires { next.now.settled + next.now.held < 2 ^ 64 }
    ensures { (t : Terms) (entries : List Entry) (r : Round) → is_timely t.mode ≡ timely
        → r.link ≡ link_of link
        → delivery_of next.now ≡ stepped t (picked_at t entries r.front)
        (is_stop_closed t.selection (take r.front entries)) r.now (delivery_of before.now)
        → delivery_of result ≡ after_round t entries r (delivery_of before.now) }
{
    match link {
        Link::Blocked => *before,
        Link::Broken => *before,
        Link::Waiting => *next,
        Link::Free(answer) => {
            if next.fixed {
                answered(timely, answer, next)
            } else {
                *next
            }
        }
    }
}

/// The delivery after the answer to its buffer.
pub fn answered(timely: bool, answer: Answer, delivery: &Delivery) -> Delivery
    requires { delivery.now.settled + delivery.now.held < 2 ^ 64 }
    ensures { (t : Terms) → is_timely t.mode ≡ timely
        → delivery_of result ≡ answered t (answer_of answer) (delivery_of delivery.now) }
{
    match answer {
        Answer::Whole => taken_whole(delivery),
        Answer::Stalled => stalled(timely, delivery),
        Answer::Failed => *delivery,
    }
}

// An offer that was taken whole: a backlog in it is no longer owed, and end of data ends the
// delivery.
fn taken_whole(delivery: &Delivery) -> Delivery
    requires { delivery.now.settled + delivery.now.held < 2 ^ 64 }
    ensures { delivery_of result ≡ taken_whole (delivery_of delivery.now) }
{
    let mut after = released(delivery);
    match delivery.head {
        Some(Head::Backlog) => after.owed = false,
        Some(Head::EndOfData) => after.ended = true,
        None => {}
    }
    after
}

// A stalled offer: a timely delivery discards a buffer that has a picked entry, and owes a backlog.
fn stalled(timely: bool, delivery: &Delivery) -> Delivery
    requires { delivery.now.settled + delivery.now.held < 2 ^ 64 }
    ensures { (mode : Mode) → is_timely mode ≡ timely
        → delivery_of result ≡ stalled mode (delivery_of delivery.now) }
{
    if !timely || delivery.held == 0 {
        return *delivery;
    }
    let mut after = released(delivery);
    after.owed = true;
    after
}

// The held buffer is settled.
fn released(delivery: &Delivery) -> Delivery
    requires { delivery.now.settled + delivery.now.held < 2 ^ 64 }
    ensures { delivery_of result ≡ released (delivery_of delivery.now) }
{
    Delivery {
        settled: delivery.settled + u64::from(delivery.held),
        held: 0,
        head: None,
        owed: delivery.owed,
        fixed: false,
        since: delivery.since,
        ended: delivery.ended,
    }
}
