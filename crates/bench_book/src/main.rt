// Publishes frames to a book and has it answer looks at them, so that the answers can be timed.
//
// The words are `ENTRIES OCTETS KIND PLACE ROOM ROUNDS`: so many frames are published, each of so
// many octets, of which the last ten alone are erred; then so many answers look from a place on for
// so many frames: good ones for the kind 0, erred ones for 1, and those of a channel that has none
// for 2. A line tells how many items the answers gave, and how many octets their last ones have.
// With no words that is done for few frames, in each way.
#![tactic(auto)]

use cds_time::{Cds, Rest};
use frame_select::{Filter, Item, Selection, Want};
use octet_core::{Memory, Octets};
use record_form::{Entries, Entry};
use sle_common::{Channel, Gvcid};
use sle_numbers::{FrameQuality, RequestedFrameQuality};
use station_book::{Ask, Book, PublishFault};
use station_config::Site;
use std::alloc::{AllocError, Global};
use std::{env, io};

/// The most octets of a frame.
const FRAME: [u8; 65_536] = [0x5a; 65_536];

/// How many entries are published at once.
const BATCH: u32 = 256;

/// How many of the last frames are erred.
const ERRED: u32 = 10;

/// A channel of TM frames, which none of the frames is on.
const QUIET: Gvcid = Gvcid {
    spacecraft: 1,
    version: 0,
    channel: Channel::Virtual(2),
};

/// 20000 days.
const NOW: u128 = 1_728_000_000_000_000_000_000;

/// What is looked for.
#[derive(Clone, Copy)]
struct Look {
    filter: Filter,
    place: u64,
    room: u32,
}

impl Look {
    fn want(self) -> Want {
        Want::Items {
            selection: Selection {
                filter: self.filter,
                start: None,
                stop: None,
                first: 0,
                notices: false,
            },
            place: self.place,
            since: None,
            room: self.room,
            octets: u32::MAX,
        }
    }
}

/// A frame of these octets, which it shares, at 20000 days.
fn frame(alloc: Global, octets: &Octets, quality: FrameQuality) -> Result<Entry, Memory> {
    Ok(Entry::Frame {
        ert: Cds {
            days: 20_000,
            millis: 0,
            rest: Rest::Micros(0),
        },
        quality,
        antenna: Octets::copy_of(alloc, b"A")?,
        lost: 0,
        octets: octets.clone()?,
    })
}

/// Publishes as many frames of this quality.
fn publish(
    alloc: Global,
    book: &mut Book,
    octets: &Octets,
    quality: FrameQuality,
    count: u32,
) -> Result<(), PublishFault> {
    let mut entries = Entries::new(alloc);
    for _ in 0..count {
        let entry = frame(alloc, octets, quality).map_err(|_| PublishFault::Memory)?;
        entries.push(entry).map_err(|_| PublishFault::Memory)?;
    }
    book.publish(entries).map_err(|(fault, _)| fault)
}

/// A book of so many frames, of which the last ten alone are erred.
fn book_of(alloc: Global, entries: u32, octets: &[u8]) -> Result<Book, PublishFault> {
    let Ok(site) = Site::parse(alloc, b"") else {
        return Err(PublishFault::Memory);
    };
    let octets = Octets::copy_of(alloc, octets).map_err(|_| PublishFault::Memory)?;
    let mut book = Book::new(alloc, &site, Entries::new(alloc), 0).map_err(
        |_| PublishFault::Memory,
    )?;
    let good = entries.saturating_sub(ERRED);
    for _ in 0..good / BATCH {
        publish(alloc, &mut book, &octets, FrameQuality::Good, BATCH)?;
    }
    publish(alloc, &mut book, &octets, FrameQuality::Good, good % BATCH)?;
    publish(
        alloc,
        &mut book,
        &octets,
        FrameQuality::Erred,
        entries.min(ERRED),
    )?;
    Ok(book)
}

/// How many items answers gave, and how many octets their last ones have.
#[derive(Clone, Copy)]
struct Given {
    items: u64,
    octets: u64,
}

fn octets_of(item: &Item) -> u64 {
    match item {
        Item::Frame { octets, .. } => octets.len() as u64,
        _ => 0,
    }
}

/// Has a look answered as often.
fn answer_often(book: &mut Book, look: Look, rounds: u32) -> Result<Given, Memory> {
    let want = look.want();
    let mut given = Given {
        items: 0,
        octets: 0,
    };
    for _ in 0..rounds {
        let (_, glimpse, _) = book.answer(1, NOW, &Ask::Nothing, &want)?;
        given.items = given.items.saturating_add(glimpse.items.len() as u64);
        let last = glimpse.items.as_slice().last().map_or(0, octets_of);
        given.octets = given.octets.saturating_add(last);
    }
    Ok(given)
}

/// Publishes, has looks answered, and tells what they gave.
fn run(rt: &HostRuntime, entries: u32, octets: u32, look: Look, rounds: u32) -> io::Result<()> {
    let octets = FRAME.get(..octets as usize).unwrap_or(&FRAME);
    let mut book = match book_of(rt.alloc(), entries, octets) {
        Ok(book) => book,
        Err(PublishFault::Memory) => return Err(AllocError.into()),
        Err(PublishFault::Foreign) => return Err(io::ErrorKind::InvalidInput.into()),
    };
    let given = answer_often(&mut book, look, rounds).map_err(AllocError::from)?;
    let (items, octets) = (given.items, given.octets);
    println!(rt; "{entries} entries, {rounds} answers, {items} items, {octets} octets")
}

/// What a kind of frames is selected by.
fn filter_of(kind: u32) -> Filter {
    match kind {
        0 => Filter::Quality(RequestedFrameQuality::GoodFramesOnly),
        1 => Filter::Quality(RequestedFrameQuality::ErredFrameOnly),
        _ => Filter::Channel(QUIET),
    }
}

/// The number that the next word is, or 1.
fn number(word: Option<String>) -> u32 {
    word.and_then(|word| word.parse::<u32>().ok()).unwrap_or(1)
}

fn main(rt: HostRuntime) -> io::Result<()> {
    let mut words = env::args(&rt)?.skip(1);
    let Some(entries) = words.next() else {
        for kind in 0..3 {
            let look = Look {
                filter: filter_of(kind),
                place: 10,
                room: 5,
            };
            run(&rt, 600, 1_115, look, 3)?;
        }
        return Ok(());
    };
    let entries = number(Some(entries));
    let octets = number(words.next());
    let look = Look {
        filter: filter_of(number(words.next())),
        place: u64::from(number(words.next())),
        room: number(words.next()),
    };
    run(&rt, entries, octets, look, number(words.next()))
}
