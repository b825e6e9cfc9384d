// Scripts of a queue's calls. A row is a step, and behind `=` what it answers; `;` ends it.
ghost use Rattle.std.specs.Prelude.{◌<◌};
ghost use Rattle.cds_time.specs.declared.cds.TheConstants.{MOMENT_END};

use cds_time::{Cds, Rest};
use cltu_queue::{Cltu, CltuFault, Queue, Room, Taken};
use fcltu_numbers::{CltuProductionStatus, UplinkStatus};
use octet_core::Octets;
use sle_numbers::Numbered;
use std::alloc::{AllocError, Global};
use std::process::Abort;
use std::str::SplitWhitespace;
use std::test::Fail;

// 20000/0/0 as a moment: 1,728,000,000 seconds, in picoseconds. Moments of scripts are picoseconds
// since then.
const DAY: u128 = 1_728_000_000_000_000_000_000;

const OCTETS: [u8; 101] = [0x55; 101];

// The next word as a number.
fn number(words: &mut SplitWhitespace) -> u32 {
    words.next().unwrap_or("").parse().unwrap_or(0)
}

fn moment(words: &mut SplitWhitespace) -> u128
    ensures { result < MOMENT_END }
{
    DAY + u128::from(number(words))
}

// The time on day 20,000 that a word has in microseconds or picoseconds; in milliseconds, of which
// a day has 86,400,000, it may name no moment. Any word with no `/` is no time.
fn time(word: &str) -> Option<Cds> {
    let (unit, count) = word.split_once('/')?;
    let count = count.parse().unwrap_or(0);
    let (millis, rest) = match unit {
        "millis" => (count, Rest::Micros(0)),
        "micros" => (0, Rest::Micros(u16::try_from(count).unwrap_or(0))),
        _ => (0, Rest::Picos(count)),
    };
    Some(Cds {
        days: 20_000,
        millis,
        rest,
    })
}

// A CLTU by its words: identification, window, delay, whether its end is to be told, and how many
// octets it has.
fn cltu(alloc: Global, words: &mut SplitWhitespace) -> Result<Cltu, AllocError> {
    let id = number(words);
    let earliest = time(words.next().unwrap_or(""));
    let latest = time(words.next().unwrap_or(""));
    let radiation_delay = number(words);
    let wanted = words.next() == Some("told");
    let octets = OCTETS.get(..number(words) as usize).unwrap_or(&OCTETS);
    Ok(Cltu {
        id,
        earliest,
        latest,
        radiation_delay,
        wanted,
        octets: Octets::copy_of(alloc, octets)?,
    })
}

fn told_room(alloc: Global, room: Result<Room, CltuFault>) -> Result<String, AllocError> {
    match room {
        Ok(Room { next, free }) => format!(in alloc; "next {next} free {free}"),
        Err(CltuFault::Refused { diagnostic, room }) => {
            format!(in alloc;
                "refused {} next {} free {}",
                diagnostic.number(),
                room.next,
                room.free
            )
        }
        Err(CltuFault::Memory) => Err(AllocError),
    }
}

fn told_taken(alloc: Global, answer: Taken) -> Result<String, AllocError> {
    match answer {
        Taken::Idle => format!(in alloc; "idle"),
        Taken::Waits { until } => format!(in alloc; "waits {}", until.wrapping_sub(DAY)),
        Taken::Expired { id } => format!(in alloc; "expired {id}"),
        Taken::Radiate { run, id, octets } => {
            format!(in alloc; "radiate {run} {id} {}", octets.len())
        }
    }
}

// The kinds of all notices that wait, in order.
fn kinds(alloc: Global, queue: &mut Queue) -> Result<String, AllocError> {
    let mut text = String::new(alloc);
    // No more than these wait in any script.
    for _ in 0..10 {
        if let Some(notice) = queue.notice() {
            text.push_str(format!(in alloc; "{} ", notice.kind.number())?.as_str())?;
        }
    }
    Ok(text)
}

fn start(alloc: Global, queue: &mut Queue, first: u32) -> Result<String, AllocError> {
    if queue.is_started() {
        return format!(in alloc; "started already");
    }
    match queue.start(first) {
        Ok(()) => format!(in alloc; "ok"),
        Err(diagnostic) => format!(in alloc; "refused {}", diagnostic.number()),
    }
}

fn send(
    alloc: Global,
    queue: &mut Queue,
    words: &mut SplitWhitespace,
) -> Result<String, AllocError> {
    let cltu = cltu(alloc, words)?;
    let now = moment(words);
    if !queue.is_started() {
        return format!(in alloc; "not started");
    }
    told_room(alloc, queue.transfer(&cltu, now))
}

// Reads production and uplink; a number that no status has is that of the first.
fn uplink(queue: &mut Queue, production: u32, status: u32) {
    queue.uplink(
        status_of(production, CltuProductionStatus::Operational),
        status_of(status, UplinkStatus::UplinkStatusNotAvailable),
    );
}

fn status_of<T: Numbered>(number: u32, other: T) -> T {
    match u8::try_from(number) {
        Ok(number) => T::from_number(number).unwrap_or(other),
        Err(_) => other,
    }
}

// Makes a step that answers nothing.
fn make(queue: &mut Queue, word: &str, words: &mut SplitWhitespace) {
    let (first, second) = (number(words), number(words));
    match word {
        "stop" => queue.stop(),
        "done" => queue.done(u64::from(first), second, moment(words)),
        "broken" => queue.interrupted(u64::from(first), second),
        _ => uplink(queue, first, second),
    }
}

// Makes a step, and answers what it answers.
fn answer(alloc: Global, queue: &mut Queue, step: &str) -> Result<String, AllocError> {
    let mut words = step.split_whitespace();
    let word = words.next().unwrap_or("");
    match word {
        "start" => start(alloc, queue, number(&mut words)),
        "send" => send(alloc, queue, &mut words),
        "take" => told_taken(alloc, queue.take(moment(&mut words))),
        "notice" => format!(in alloc; "{:?}", queue.notice()),
        "kinds" => kinds(alloc, queue),
        "view" => format!(in alloc; "{:?}", queue.view()),
        _ => {
            make(queue, word, &mut words);
            Ok(String::new(alloc))
        }
    }
}

fn is_so(alloc: Global, queue: &mut Queue, row: &str) -> Result<bool, AllocError> {
    let (step, expected) = row.split_once('=').unwrap_or((row, ""));
    let answer = answer(alloc, queue, step)?;
    Ok(answer.split_whitespace().eq(expected.split_whitespace()))
}

// The first row that isn't so, in a queue for so many octets, of which one CLTU may have 100.
fn wrong_row<'a>(alloc: Global, room: u32, rows: &'a str) -> Result<Option<&'a str>, AllocError> {
    let mut queue = Queue::new(alloc, room, 100)?;
    for row in rows.split_terminator(';') {
        if !is_so(alloc, &mut queue, row)? {
            return Ok(Some(row));
        }
    }
    Ok(None)
}

/// Each row is so, in a queue for so many octets, of which one CLTU may have 100.
pub fn check(rt: &impl Abort, alloc: Global, room: u32, rows: &str) -> Result<(), Fail> {
    assert_eq!(rt; wrong_row(alloc, room, rows)?, None);
    Ok(())
}
