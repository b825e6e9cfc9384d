// Scripts of a feeder's calls. A row is a step, and behind `=` what it answers; `;` ends it. Octets
// are written in hexadecimal digits.
ghost use Rattle.std.specs.Prelude.{◌≡◌};
ghost use Rattle.isp1_tml.specs.Feeding.{after_next};

use isp1_tml::{Feeder, Message, TmlFault};
use std::alloc::{AllocError, Global};
use std::process::Abort;
use std::test::Fail;

/// A message as a text, and a blank. Of a long PDU whose octets are all A5 their number alone.
pub fn told_message(alloc: Global, message: Message<'_>) -> Result<String, AllocError> {
    match message {
        Message::Pdu(body) if body.len() > 1_000 && body.iter().all(|octet| *octet == 0xa5) => {
            format!(in alloc; "Pdu of {} octets ", body.len())
        }
        _ => format!(in alloc; "{message:?} "),
    }
}

fn told_next(
    alloc: Global,
    next: Result<Option<Message<'_>>, TmlFault>,
) -> Result<String, AllocError> {
    match next {
        Ok(Some(message)) => told_message(alloc, message),
        Ok(None) => format!(in alloc; "none"),
        Err(fault) => format!(in alloc; "{fault:?}"),
    }
}

// How many octets a feeder took, or why it refused them.
fn told_feed(alloc: Global, answer: Result<usize, TmlFault>) -> Result<String, AllocError> {
    match answer {
        Ok(taken) => format!(in alloc; "{taken}"),
        Err(fault) => format!(in alloc; "{fault:?}"),
    }
}

// Feeds octets one by one, and answers how many are taken before the first refusal.
fn feed_each(feeder: &mut Feeder, octets: &[u8]) -> usize {
    for (taken, octet) in octets.iter().enumerate() {
        if feeder.feed(&[*octet]).is_err() {
            return taken;
        }
    }
    octets.len()
}

// A caller knows what is left.
fn skip_one(feeder: &mut Feeder)
    ensures { feeder.new ≡ after_next feeder.old }
{
    let _ = feeder.next_message();
}

// Feeds the longest PDU's body, of octets A5.
fn feed_longest(alloc: Global, feeder: &mut Feeder) -> Result<String, AllocError> {
    let body = vec![in alloc; 0xa5u8; 1_048_576]?;
    told_feed(alloc, feeder.feed(&body))
}

// Feeds octets at once, or one by one.
fn feed(alloc: Global, feeder: &mut Feeder, word: &str, octets: &str) -> Result<String, Fail> {
    let octets = hex::decode(alloc, octets)?;
    Ok(if word == "each" {
        format!(in alloc; "{} of {}", feed_each(feeder, &octets), octets.len())?
    } else {
        told_feed(alloc, feeder.feed(&octets))?
    })
}

fn answer(alloc: Global, feeder: &mut Feeder, step: &str) -> Result<String, Fail> {
    let (word, rest) = step.split_once(' ').unwrap_or((step, ""));
    Ok(match word {
        "new" => {
            *feeder = Feeder::new(alloc)?;
            String::new(alloc)
        }
        "skip" => {
            skip_one(feeder);
            String::new(alloc)
        }
        "next" => told_next(alloc, feeder.next_message())?,
        "longest" => feed_longest(alloc, feeder)?,
        "some" => format!(in alloc; "{}", feeder.has_message())?,
        "room" => format!(in alloc; "{}", feeder.room())?,
        _ => return feed(alloc, feeder, word, rest),
    })
}

fn is_so(alloc: Global, feeder: &mut Feeder, row: &str) -> Result<bool, Fail> {
    let (step, expected) = row.split_once('=').unwrap_or((row, ""));
    let answer = answer(alloc, feeder, step.trim())?;
    Ok(answer.as_str().trim_end() == expected.trim())
}

// The first row that isn't so.
fn wrong_row<'a>(alloc: Global, rows: &'a str) -> Result<Option<&'a str>, Fail> {
    let mut feeder = Feeder::new(alloc)?;
    for row in rows.split_terminator(';') {
        if !is_so(alloc, &mut feeder, row)? {
            return Ok(Some(row));
        }
    }
    Ok(None)
}

/// Each row is so.
pub fn check(rt: &impl Abort, alloc: Global, rows: &str) -> Result<(), Fail> {
    assert_eq!(rt; wrong_row(alloc, rows)?, None);
    Ok(())
}
