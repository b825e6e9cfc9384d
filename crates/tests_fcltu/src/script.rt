// Scripts of rounds. A row is a step, and behind `=` the octets that it has offered; `;` ends it. A
// step is an invocation, `round` without one, or what happens to the queue meanwhile.

use crate::rounds::{Limits, Station};
use cds_time::{Cds, Rest};
use fcltu_numbers::{CltuProductionStatus, UplinkStatus};
use fcltu_pdu::{CltuStart, CltuTransfer, Throw};
use fcltu_service::CltuInvocation;
use sle_common::{Credentials, ReportKind};
use sle_numbers::Numbered;
use std::alloc::Global;
use std::process::Abort;
use std::str::SplitWhitespace;
use std::test::Fail;

const OCTETS: [u8; 101] = [0x55; 101];

// The next word as a number.
fn number(words: &mut SplitWhitespace) -> u64 {
    words.next().unwrap_or("").parse().unwrap_or(0)
}

fn small(words: &mut SplitWhitespace) -> u32 {
    u32::try_from(number(words)).unwrap_or(u32::MAX)
}

// The time on day 20,000 that a word has in microseconds; in milliseconds, of which a day has
// 86,400,000, it may name no moment. Any word with no `/` is no time.
fn time(word: &str) -> Option<Cds> {
    let (unit, count) = word.split_once('/')?;
    let count: u32 = count.parse().unwrap_or(0);
    let (millis, micros) = match unit {
        "millis" => (count, 0),
        _ => (0, u16::try_from(count).unwrap_or(0)),
    };
    Some(Cds {
        days: 20_000,
        millis,
        rest: Rest::Micros(micros),
    })
}

// A TRANSFER-DATA by its words: identification, window, delay, whether its end is to be told, and
// how many octets it has.
fn transfer(words: &mut SplitWhitespace) -> CltuTransfer<'static> {
    let id = small(words);
    let earliest = time(words.next().unwrap_or(""));
    let latest = time(words.next().unwrap_or(""));
    let radiation_delay = small(words);
    let wanted = words.next() == Some("told");
    let octets = OCTETS.get(..small(words) as usize).unwrap_or(&OCTETS);
    CltuTransfer {
        credentials: Credentials::Unused,
        invoke: 0,
        id,
        earliest,
        latest,
        radiation_delay,
        wanted,
        octets,
    }
}

fn report_kind(word: &str) -> ReportKind {
    match word {
        "now" => ReportKind::Now,
        "stop" => ReportKind::Stop,
        _ => ReportKind::Cycle(word.parse().unwrap_or(0)),
    }
}

// What a step invokes, if it is one of a session.
fn invocation(word: &str, words: &mut SplitWhitespace) -> Option<CltuInvocation<'static>> {
    Some(match word {
        "round" => CltuInvocation::Nothing,
        "start" => CltuInvocation::Start(CltuStart {
            credentials: Credentials::Unused,
            invoke: 0,
            first: small(words),
        }),
        "stop" => CltuInvocation::Stop,
        "cltu" => CltuInvocation::Transfer(transfer(words)),
        "throw" => CltuInvocation::Throw(Throw {
            credentials: Credentials::Unused,
            invoke: 0,
            number: small(words),
            event: 1,
            qualifier: &[],
        }),
        "report" => CltuInvocation::Report(report_kind(words.next().unwrap_or(""))),
        "get" => CltuInvocation::Get(u16::try_from(number(words)).unwrap_or(0)),
        _ => return None,
    })
}

// The value of a number; another one where no value has it.
fn value_of<T: Numbered>(number: u64, other: T) -> T {
    match u8::try_from(number) {
        Ok(number) => T::from_number(number).unwrap_or(other),
        Err(_) => other,
    }
}

// What happens to the queue.
fn happen(station: &mut Station, word: &str, words: &mut SplitWhitespace) {
    let (first, second) = (number(words), small(words));
    let now = station.now();
    match word {
        "clock" => station.clock = first,
        "take" => {
            let _ = station.queue.take(now);
        }
        "done" => station.queue.done(first, second, now),
        "broken" => station.queue.interrupted(first, second),
        _ => station.queue.uplink(
            value_of(first, CltuProductionStatus::Operational),
            value_of(u64::from(second), UplinkStatus::Nominal),
        ),
    }
}

fn offered(station: &mut Station, step: &str) -> Result<Vec<u8>, Fail> {
    let mut words = step.split_whitespace();
    let word = words.next().unwrap_or("");
    match invocation(word, &mut words) {
        Some(invocation) => station.round(&invocation),
        None => {
            happen(station, word, &mut words);
            Ok(Vec::new(station.alloc))
        }
    }
}

// The octets of words of hexadecimal digits.
fn octets_of(alloc: Global, words: &str) -> Result<Vec<u8>, Fail> {
    let mut digits = String::new(alloc);
    for word in words.split_whitespace() {
        digits.push_str(word)?;
    }
    Ok(hex::decode(alloc, digits.as_str())?)
}

// The first row that isn't so, at a station of its own.
fn wrong_row<'a>(alloc: Global, limits: Limits, rows: &'a str) -> Result<Option<&'a str>, Fail> {
    let mut station = Station::new(alloc, limits)?;
    for row in rows.split_terminator(';') {
        let (step, expected) = row.split_once('=').unwrap_or((row, ""));
        let expected = octets_of(alloc, expected)?;
        if offered(&mut station, step)?.as_slice() != expected.as_slice() {
            return Ok(Some(row));
        }
    }
    Ok(None)
}

/// Each row is so, at a station of its own.
pub fn check(rt: &impl Abort, alloc: Global, limits: Limits, rows: &str) -> Result<(), Fail> {
    assert_eq!(rt; wrong_row(alloc, limits, rows)?, None);
    Ok(())
}
