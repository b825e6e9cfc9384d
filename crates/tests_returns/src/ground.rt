// An archive in small, what a look gives of it, and the rounds of a delivery on it as texts.
//
// A row is a step, and behind `=` what it says; `;` ends it. A step is a round (how many entries
// there are, the moment and the link), `start`, `stop` or `state`.
use cds_time::{Cds, Rest};
use frame_select::{Filter, Glimpse, Item, Items, Locks, Selection, Want};
use octet_core::Octets;
use return_core::{Delivery, Offer, are_of_archive};
use sle_numbers::{
    FrameQuality, LockStatus, RequestedFrameQuality, ReturnDeliveryMode, ReturnProductionStatus,
};
use std::alloc::{AllocError, Global};
use std::process::Abort;
use std::test::Fail;

/// An entry of the archive, at its place in a list. Each is picked that the stop doesn't shut out.
#[derive(Clone, Copy, Debug, PartialEq, Eq)]
pub enum Entry {
    /// A frame of one octet.
    Small,
    /// A frame of 65,536 octets.
    Long,
    Loss,
    Production,
}

// What a round finds on its link.
#[derive(Clone, Copy, Debug, PartialEq, Eq)]
enum Link {
    // No block waits; a buffer that is offered is answered so.
    Whole,
    Stall,
    Fail,
    // A block of this round waits.
    Waits,
    // A block of an earlier round waits.
    Blocked,
}

// A round: how many entries there are, the moment and the link.
type Round = (usize, u128, Link);

/// The archive and the delivery of a row: the archive's stop is closed once it has so many entries,
/// and none behind them is picked.
#[derive(Clone, Copy)]
pub struct Instance<'a> {
    pub entries: &'a [Entry],
    pub closes: usize,
    pub mode: ReturnDeliveryMode,
    pub size: u32,
    pub latency: u128,
}

const SELECTION: Selection = Selection {
    filter: Filter::Quality(RequestedFrameQuality::AllFrames),
    start: None,
    stop: Some(0),
    first: 0,
    notices: true,
};

const TIME: Cds = Cds {
    days: 20_000,
    millis: 0,
    rest: Rest::Micros(0),
};

// How many places a frame is behind the one before it, or -1.
fn behind(before: Option<u64>, place: u64) -> i32 {
    match before {
        Some(before) => i32::try_from(place.wrapping_sub(before)).unwrap_or(i32::MAX),
        None => -1,
    }
}

fn is_frame(entry: Entry) -> bool {
    matches!(entry, Entry::Small | Entry::Long)
}

fn length(entry: Entry) -> usize {
    match entry {
        Entry::Small => 1,
        Entry::Long => 65_536,
        _ => 0,
    }
}

// A frame's octets.
fn octets_of(alloc: Global, entry: Entry) -> Result<Octets, AllocError> {
    let octets = vec![in alloc; 0x41; length(entry)]?;
    Ok(Octets::from_vec(alloc, octets)?)
}

// The item of an entry at a place. A frame's continuity is how many places it is behind the frame
// before it.
fn item_of(
    alloc: Global,
    entry: Entry,
    place: u64,
    since: Option<u64>,
) -> Result<Item, AllocError> {
    Ok(match entry {
        Entry::Loss => Item::Loss {
            place,
            at: TIME,
            carrier: LockStatus::InLock,
            subcarrier: LockStatus::InLock,
            symbol: LockStatus::InLock,
        },
        Entry::Production => Item::Production {
            place,
            status: ReturnProductionStatus::Interrupted,
        },
        _ => Item::Frame {
            place,
            ert: TIME,
            quality: FrameQuality::Good,
            antenna: octets_of(alloc, Entry::Small)?,
            continuity: behind(since, place),
            octets: octets_of(alloc, entry)?,
        },
    })
}

// What a look gives at a front.
fn look(
    alloc: Global,
    instance: &Instance,
    want: &Want,
    front: usize,
) -> Result<Glimpse, AllocError> {
    let mut glimpse = Glimpse {
        front: front as u64,
        items: Items::new(alloc),
        next: 0,
        more: false,
        closed: front >= instance.closes,
        locks: Locks {
            frame_sync: LockStatus::InLock,
            symbol: LockStatus::InLock,
            subcarrier: LockStatus::InLock,
            carrier: LockStatus::InLock,
        },
        production: ReturnProductionStatus::Running,
    };
    let Want::Items {
        place,
        mut since,
        room,
        octets,
        ..
    } = *want
    else {
        return Ok(glimpse);
    };
    let mut sum = 0usize;
    for (at, entry) in instance.entries.iter().enumerate() {
        if (at as u64) < place || front.min(instance.closes) <= at {
            continue;
        }
        if glimpse.items.len() >= room as usize || sum >= octets as usize {
            glimpse.more = true;
            return Ok(glimpse);
        }
        glimpse
            .items
            .push(item_of(alloc, *entry, at as u64, since)?)?;
        if is_frame(*entry) {
            since = Some(at as u64);
            sum = sum.saturating_add(length(*entry));
        }
    }
    Ok(glimpse)
}

fn told_item(alloc: Global, item: &Item) -> Result<String, AllocError> {
    match item {
        Item::Frame {
            place,
            continuity,
            ..
        } => format!(in alloc; " {place}({continuity})"),
        Item::Loss { place, .. } => format!(in alloc; " L{place}"),
        Item::Production { place, .. } => format!(in alloc; " P{place}"),
        Item::Backlog => format!(in alloc; " B"),
        Item::EndOfData => format!(in alloc; " E"),
    }
}

// Items behind a word: a frame's place and continuity, L or P and a place, B and E.
fn told_items(alloc: Global, word: &str, items: &[Item]) -> Result<String, AllocError> {
    let mut text = String::from_str(alloc, word)?;
    for item in items {
        text.push_str(told_item(alloc, item)?.as_str())?;
    }
    Ok(text)
}

// What a link answers to what it is offered.
fn answer_of(link: Link) -> Offer {
    match link {
        Link::Stall => Offer::Stalled,
        Link::Fail => Offer::Failed,
        _ => Offer::Whole,
    }
}

// Settles what is offered, and says what became of it: of a discard, how many items it tells.
fn settle(alloc: Global, delivery: &mut Delivery, link: Link) -> Result<String, AllocError> {
    let answer = answer_of(link);
    let discards = delivery.discards(answer);
    delivery.settle(answer);
    match (answer, discards) {
        (_, Some(count)) => format!(in alloc; "discarded {count}:"),
        (Offer::Whole, None) => format!(in alloc; "sent"),
        (Offer::Stalled, None) => format!(in alloc; "kept"),
        (Offer::Failed, None) => format!(in alloc; "failed"),
    }
}

// Has a delivery make a step by a look, where it makes any.
fn step(delivery: &mut Delivery, glimpse: Glimpse, now: u128) -> bool {
    are_of_archive(&glimpse.items) && delivery.step(glimpse, now)
}

// What a round does.
fn play_round(
    alloc: Global,
    delivery: &mut Delivery,
    instance: &Instance,
    round: Round,
) -> Result<String, AllocError> {
    let (front, now, link) = round;
    if link == Link::Blocked {
        return format!(in alloc; "-");
    }
    let glimpse = look(alloc, instance, &delivery.want(), front)?;
    if !step(delivery, glimpse, now) {
        return format!(in alloc; "-");
    }
    if link == Link::Waits {
        return format!(in alloc; "waits");
    }
    let items = told_items(alloc, "", delivery.current())?;
    let word = settle(alloc, delivery, link)?;
    format!(in alloc; "{word}{items}")
}

// Whether a delivery is started, whether it offers, whether it wants anything, and what it holds.
fn state(alloc: Global, delivery: &Delivery) -> Result<String, AllocError> {
    let (is_stopped, offers) = (delivery.is_stopped(), delivery.is_offering());
    let wants = delivery.want() != Want::Nothing;
    let items = told_items(alloc, "", delivery.current())?;
    format!(in alloc; "stopped {is_stopped}, offers {offers}, wants {wants}:{items}")
}

fn start(delivery: &mut Delivery) {
    if delivery.is_stopped() {
        delivery.start(SELECTION);
    }
}

fn delivery_of(alloc: Global, instance: &Instance) -> Result<Delivery, AllocError> {
    if instance.size == 0 {
        return Err(AllocError);
    }
    match Delivery::new(alloc, instance.mode, instance.size, Some(instance.latency)) {
        Ok(delivery) => Ok(delivery),
        Err(_) => Err(AllocError),
    }
}

// A round by its words.
fn round_of(step: &str) -> Round {
    let (front, rest) = step.split_once(' ').unwrap_or((step, ""));
    let (now, link) = rest.split_once(' ').unwrap_or((rest, ""));
    let link = match link {
        "whole" => Link::Whole,
        "stall" => Link::Stall,
        "fail" => Link::Fail,
        "waits" => Link::Waits,
        _ => Link::Blocked,
    };
    (front.parse().unwrap_or(0), now.parse().unwrap_or(0), link)
}

// Makes a step, and says what it says.
fn answer(
    alloc: Global,
    delivery: &mut Delivery,
    instance: &Instance,
    step: &str,
) -> Result<String, AllocError> {
    match step {
        "start" => start(delivery),
        "stop" => delivery.stop(),
        "state" => return state(alloc, delivery),
        _ => return play_round(alloc, delivery, instance, round_of(step)),
    }
    Ok(String::new(alloc))
}

fn is_so(
    alloc: Global,
    delivery: &mut Delivery,
    instance: &Instance,
    row: &str,
) -> Result<bool, AllocError> {
    let (step, expected) = row.split_once(" = ").unwrap_or((row, ""));
    let answer = answer(alloc, delivery, instance, step.trim_start())?;
    Ok(answer.as_str().trim_start() == expected)
}

// The first row that isn't so.
fn wrong_row<'a>(
    alloc: Global,
    instance: &Instance,
    rows: &'a str,
) -> Result<Option<&'a str>, AllocError> {
    let mut delivery = delivery_of(alloc, instance)?;
    for row in rows.split_terminator(';') {
        if !is_so(alloc, &mut delivery, instance, row)? {
            return Ok(Some(row));
        }
    }
    Ok(None)
}

/// Each row of an instance is so.
pub fn check(rt: &impl Abort, alloc: Global, instance: &Instance, rows: &str) -> Result<(), Fail> {
    assert_eq!(rt; wrong_row(alloc, instance, rows)?, None);
    Ok(())
}
