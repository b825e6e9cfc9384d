// An archive in small, what a look gives of it, and the rounds of an instance on it as texts.
//
// A row is a step, and behind `=` what it says; `;` ends it. A step is what a user asks (`words`), in
// a round of its own, or one of `at` (the clock reads so many milliseconds from now on), `archive`
// (the look's entries: `g` a good frame, `e` an erred one, `u` one of undetermined quality, `L` a
// loss of synchronisation), `production` (the look's status), `wants` (what it wants of a look in
// whose round the words behind it are asked), `due` (the report of a round), and `round` with the
// link's answer.
ghost use Rattle.std.specs.Prelude.{IfSome, ◌<◌};
ghost use Rattle.cds_time.specs.declared.cds.TheConstants.{MOMENT_END};

use crate::instance::{Instance, Terms};
use crate::words::{answer_text, report_text};
use cds_time::{Cds, MOMENT_END, PICOS_A_MILLI, Rest};
use frame_select::{Filter, Glimpse, Item, Items, Locks, Want};
use octet_core::{Octets, Offer};
use sle_numbers::{FrameQuality, LockStatus, RequestedFrameQuality, ReturnProductionStatus};
use std::alloc::{AllocError, Global};
use std::process::Abort;
use std::test::Fail;

// What stands around an instance: the archive's entries, the production status and the clock.
#[derive(Clone, Copy)]
struct Around<'a> {
    entries: &'a str,
    production: ReturnProductionStatus,
    millis: u32,
}

/// An instance, and what stands around it.
#[derive(Drop)]
pub struct Scene<'a> {
    instance: Instance,
    around: Around<'a>,
}

const TIME: Cds = Cds {
    days: 20_000,
    millis: 0,
    rest: Rest::Micros(0),
};

fn all_locks(status: LockStatus) -> Locks {
    Locks {
        frame_sync: status,
        symbol: status,
        subcarrier: status,
        carrier: status,
    }
}

// The locks by the last entry.
fn locks(entries: &str) -> Locks {
    match entries.as_bytes().last() {
        None => all_locks(LockStatus::Unknown),
        Some(b'L') => Locks {
            frame_sync: LockStatus::OutOfLock,
            symbol: LockStatus::NotInUse,
            subcarrier: LockStatus::Unknown,
            carrier: LockStatus::InLock,
        },
        Some(_) => all_locks(LockStatus::InLock),
    }
}

fn quality_of(entry: u8) -> FrameQuality {
    match entry {
        b'g' => FrameQuality::Good,
        b'e' => FrameQuality::Erred,
        _ => FrameQuality::Undetermined,
    }
}

// Whether a frame is asked for. Each frame here is of the channel that RCF asks for.
fn is_asked(filter: Filter, entry: u8) -> bool {
    match filter {
        Filter::Quality(RequestedFrameQuality::GoodFramesOnly) | Filter::Channel(_) => {
            entry == b'g' || entry == b'L'
        }
        Filter::Quality(RequestedFrameQuality::ErredFrameOnly) => entry == b'e' || entry == b'L',
        Filter::Quality(RequestedFrameQuality::AllFrames) => true,
    }
}

fn item_of(alloc: Global, entry: u8, place: u64) -> Result<Item, AllocError> {
    if entry == b'L' {
        return Ok(Item::Loss {
            place,
            at: TIME,
            carrier: LockStatus::InLock,
            subcarrier: LockStatus::Unknown,
            symbol: LockStatus::NotInUse,
        });
    }
    let octets = Octets::copy_of(alloc, b"A")?;
    Ok(Item::Frame {
        place,
        ert: TIME,
        quality: quality_of(entry),
        antenna: octets.clone()?,
        continuity: -1,
        octets,
    })
}

fn empty_glimpse(alloc: Global, around: &Around) -> Glimpse {
    Glimpse {
        front: around.entries.len() as u64,
        items: Items::new(alloc),
        next: 0,
        more: false,
        closed: false,
        locks: locks(around.entries),
        production: around.production,
    }
}

// What a look gives.
fn look(alloc: Global, want: &Want, around: &Around) -> Result<Glimpse, AllocError> {
    let mut glimpse = empty_glimpse(alloc, around);
    let Want::Items {
        selection,
        place,
        room,
        ..
    } = *want
    else {
        return Ok(glimpse);
    };
    for (at, entry) in around.entries.as_bytes().iter().enumerate() {
        if (at as u64) < place || !is_asked(selection.filter, *entry) {
            continue;
        }
        if glimpse.items.len() >= room as usize {
            glimpse.more = true;
            return Ok(glimpse);
        }
        glimpse.items.push(item_of(alloc, *entry, at as u64)?)?;
    }
    Ok(glimpse)
}

fn want_text(want: &Want) -> &'static str {
    match want {
        Want::Nothing => "nothing",
        Want::Front => "front",
        Want::Items { .. } => "items",
    }
}

// The moment of a reading.
fn moment(millis: u32) -> Option<u128>
    ensures { IfSome result (λ moment. moment < MOMENT_END) }
{
    let moment = u128::from(millis) * PICOS_A_MILLI;
    (moment < MOMENT_END).then_some(moment)
}

// How many frames and notices are offered, and what became of them.
fn settle(alloc: Global, instance: &mut Instance, answer: Offer) -> Result<String, AllocError> {
    let items = instance.current().len();
    instance.settle(answer);
    let word = if instance.is_offering() {
        "kept"
    } else {
        "settled"
    };
    format!(in alloc; "{word} {items}")
}

// A round in which nothing is asked, with the link's answer.
fn round(
    alloc: Global,
    instance: &mut Instance,
    around: &Around,
    answer: &str,
) -> Result<String, AllocError> {
    let glimpse = look(alloc, &instance.prepare(""), around)?;
    let now = u128::from(around.millis) * PICOS_A_MILLI;
    if !instance.step(glimpse, now) {
        return format!(in alloc; "-");
    }
    match answer {
        "whole" => settle(alloc, instance, Offer::Whole),
        "stall" => settle(alloc, instance, Offer::Stalled),
        _ => settle(alloc, instance, Offer::Failed),
    }
}

fn due(alloc: Global, instance: &mut Instance, around: &Around) -> Result<String, AllocError> {
    let glimpse = look(alloc, &Want::Nothing, around)?;
    match moment(around.millis) {
        Some(now) => report_text(alloc, instance.report(&glimpse, now)),
        None => format!(in alloc; "late"),
    }
}

// A round in which this is asked.
fn ask(
    alloc: Global,
    instance: &mut Instance,
    around: &Around,
    asked: &str,
) -> Result<String, AllocError> {
    let glimpse = look(alloc, &instance.prepare(asked), around)?;
    let now = u128::from(around.millis) * PICOS_A_MILLI;
    answer_text(alloc, instance.conclude(asked, &glimpse, now))
}

fn production(word: &str) -> ReturnProductionStatus {
    match word {
        "halted" => ReturnProductionStatus::Halted,
        "interrupted" => ReturnProductionStatus::Interrupted,
        _ => ReturnProductionStatus::Running,
    }
}

impl<'a> Scene<'a> {
    /// An instance of these terms, with no entries.
    pub fn of(alloc: Global, terms: &Terms) -> Result<Scene<'a>, AllocError> {
        Ok(Scene {
            instance: Instance::of(alloc, terms)?,
            around: Around {
                entries: "",
                production: ReturnProductionStatus::Running,
                millis: 0,
            },
        })
    }

    /// The clock reads so many milliseconds from now on.
    pub fn at(&mut self, millis: u64) {
        self.around.millis = u32::try_from(millis).unwrap_or(u32::MAX);
    }

    /// The look's entries.
    pub fn show(&mut self, entries: &'a str) {
        self.around.entries = entries;
    }

    /// Makes a step, and says what it says.
    pub fn answer(&mut self, alloc: Global, step: &'a str) -> Result<String, AllocError> {
        let (first, rest) = step.split_once(' ').unwrap_or((step, ""));
        match first {
            "at" => self.at(rest.parse().unwrap_or(0)),
            "archive" => self.show(rest),
            "production" => self.around.production = production(rest),
            "wants" => {
                return String::from_str(alloc, want_text(&self.instance.prepare(rest)));
            }
            "due" => return due(alloc, &mut self.instance, &self.around),
            "round" => return round(alloc, &mut self.instance, &self.around, rest),
            _ => return ask(alloc, &mut self.instance, &self.around, step),
        }
        Ok(String::new(alloc))
    }
}

// The first row that isn't so, with what was said.
fn wrong_row(alloc: Global, terms: &Terms, rows: &str) -> Result<Option<String>, AllocError> {
    let mut scene = Scene::of(alloc, terms)?;
    for row in rows.split_terminator(';') {
        let (step, expected) = row.split_once(" = ").unwrap_or((row, ""));
        let said = scene.answer(alloc, step.trim_start())?;
        if said.as_str() != expected {
            return Ok(Some(format!(in alloc; "{step} = {said}")?));
        }
    }
    Ok(None)
}

/// Each row of an instance is so.
pub fn check(rt: &impl Abort, alloc: Global, terms: &Terms, rows: &str) -> Result<(), Fail> {
    assert_eq!(rt; wrong_row(alloc, terms, rows)?, None);
    Ok(())
}
