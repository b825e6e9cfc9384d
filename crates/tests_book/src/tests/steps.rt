// How many steps a look takes: row by row of a table that contracts have.
ghost use Rattle.std.specs.Prelude.{◌≡◌, ◌+◌, ◌<◌, ◌≤◌, IfOk, length};

use super::book_desk::{book_of, frame_of};
use cltu_queue::Notice;
use frame_select::{Filter, Glimpse, Selection, Want};
use octet_core::Memory;
use record_form::Entries;
use sle_common::{Channel, Gvcid};
use station_book::{Ask, Book, BookReply, Steps};
use std::alloc::Global;
use std::marker::Brand;
use std::sync::ledger::{Blank, Ledger};
use std::test::Fail;

// TM frames of spacecraft 1, of its virtual channels 0 and 2 (CCSDS 132.0-B, 4.1.2).
const ON_CHANNEL_0: [u8; 2] = [0x00, 0x10];

const ON_CHANNEL_2: [u8; 2] = [0x00, 0x14];

// One frame of channel 1/0/2, from the first place on.
const WANT: Want = Want::Items {
    selection: Selection {
        filter: Filter::Channel(Gvcid {
            spacecraft: 1,
            version: 0,
            channel: Channel::Virtual(2),
        }),
        start: None,
        stop: None,
        first: 0,
        notices: false,
    },
    place: 0,
    since: None,
    room: 1,
    octets: 100,
};

// A book of 1,000 good frames, of which the last alone is on channel 1/0/2.
fn book_of_a_thousand(alloc: Global) -> Result<Book, Memory> {
    let mut book = book_of(alloc, 0)?;
    let mut entries = Entries::new(alloc);
    for _ in 0..999 {
        entries.push(frame_of(alloc, 10, &ON_CHANNEL_0)?)?;
    }
    entries.push(frame_of(alloc, 10, &ON_CHANNEL_2)?)?;
    match book.publish(entries) {
        Ok(()) => Ok(book),
        Err(_) => Err(Memory),
    }
}

// A look at such a book, for one item, takes at most 94 steps: 6 for the item, 80 for the ten digits
// of 1,000, and 8.
fn look_in<L: Ledger>(book: &Book, steps: &mut Steps<L>) -> Result<Glimpse, Memory>
    ensures { IfOk result (λ g. length book.now.published ≡ 1000 → length g.items ≤ 1
        → steps.new ≤ steps.old + 94) }
{
    book.look_counted(&WANT, steps)
}

// The same of an answer.
fn answer_in<L: Ledger>(
    book: &mut Book,
    steps: &mut Steps<L>,
) -> Result<(BookReply, Glimpse, Option<Notice>), Memory>
    ensures { IfOk result (λ r. length book.old.published ≡ 1000 → length r.1.items ≤ 1
        → steps.new ≤ steps.old + 94) }
{
    book.answer_counted(1, 0, &Ask::Nothing, &WANT, steps)
}

// How many items a look and an answer give, with the places behind them, on a counter.
fn found_by<L: Ledger>(book: &mut Book, blank: Blank) -> Result<[(usize, u64); 2], Memory>
    requires name { blank.name ≡ L.name }
    requires parts { blank.parts ≡ L.parts }
    requires one { 0 < blank.parts }
{
    let mut steps = Steps::<L>::new(blank);
    let seen = look_in(book, &mut steps)?;
    let (_, told, _) = answer_in(book, &mut steps)?;
    Ok([(seen.items.len(), seen.next), (told.items.len(), told.next)])
}

fn found(book: &mut Book) -> Result<[(usize, u64); 2], Memory> {
    found_by::<Brand>(book, Blank::new(1))
}

#[test]
fn the_only_frame_of_a_channel_is_found_in_few_steps(rt: HostRuntime) -> Result<(), Fail> {
    let mut book = book_of_a_thousand(rt.alloc())?;
    assert_eq!(rt; book.front(), 1_000);
    assert_eq!(rt; found(&mut book)?, [(1, 1_000); 2]);
    Ok(())
}
