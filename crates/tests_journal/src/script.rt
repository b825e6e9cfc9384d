// Scripts of a disk in memory and of the journal on it. A row is a step, and behind `=` what it
// answers; `;` ends it.
//
// `recover` and `append` make a journal of what the disk holds, and hand the disk back. Behind the
// number of the frame that `append` appends may stand orders, which the disk gets just before.
ghost use Rattle.std.specs.Prelude.{Some};
ghost use Rattle.disk_model.specs.MemoryDisk.{pending_of};
ghost use Rattle.gate_journal.specs.JournalState.{Keeps};

use crate::journals::{append, batch_of, told};
use disk_model::{Disk, MemoryDisk, Orders, Pick, Stop};
use gate_journal::Journal;
use octet_core::{Failed, FailingCalls};
use record_form::Entries;
use std::alloc::{AllocError, Global};
use std::mem;
use std::process::Abort;
use std::test::Fail;

// Through the bound alone, as callers use a disk.
fn write<D: Disk>(disk: &mut D, place: u64, octets: &[u8]) -> Result<(), Failed> {
    if place > disk.size() {
        return Err(Failed);
    }
    disk.write_at(place, octets)
}

fn cut<D: Disk>(disk: &mut D, size: u64) -> Result<(), Failed> {
    if size > disk.size() {
        return Err(Failed);
    }
    disk.cut(size)
}

// A step's first word, and what stands behind it.
fn split(step: &str) -> (&str, &str) {
    step.split_once(' ').unwrap_or((step, ""))
}

fn stop_at(alloc: Global, rest: &str) -> Orders {
    let (calls, pick) = split(rest);
    let pick = match pick {
        "old" => Pick::Old,
        "new" => Pick::New,
        _ => Pick::Torn,
    };
    Orders {
        failing: FailingCalls::new(Vec::new(alloc)),
        stop: Some(Stop {
            calls: calls.parse().unwrap_or(0),
            pick,
        }),
    }
}

fn fail_at(alloc: Global, calls: &str) -> Result<Orders, AllocError> {
    let mut failing = Vec::new(alloc);
    for call in calls.split_whitespace() {
        failing.push(call.parse().unwrap_or(0))?;
    }
    Ok(Orders {
        failing: FailingCalls::new(failing),
        stop: None,
    })
}

fn orders(alloc: Global, words: &str) -> Result<Orders, AllocError> {
    match split(words) {
        ("stop", rest) => Ok(stop_at(alloc, rest)),
        (_, rest) => fail_at(alloc, rest),
    }
}

// Makes a call of the disk.
fn call(disk: &mut MemoryDisk, word: &str, rest: &str) -> &'static str {
    let (number, last) = split(rest);
    let number = number.parse().unwrap_or(0);
    let answer = match word {
        "write" => write(disk, number, last.as_bytes()),
        "cut" => cut(disk, number),
        "restart" => disk.restart().map_err(|_| Failed),
        _ => disk.sync(),
    };
    if answer.is_ok() { "ok" } else { "failed" }
}

fn text_of(octets: &[u8]) -> &str {
    str::from_utf8(octets).unwrap_or("other octets")
}

// What a stop would leave by a pick.
fn left(alloc: Global, disk: &MemoryDisk, pick: Pick) -> Result<String, AllocError> {
    let octets = disk.left_by(pick)?;
    String::from_str(alloc, text_of(&octets))
}

// How often a disk has failed, whether it has stopped, and whether it lacked memory.
fn state(alloc: Global, disk: &MemoryDisk) -> Result<String, AllocError> {
    let (faults, stopped) = (disk.faults(), disk.is_stopped());
    let refused = disk.memory_refused();
    format!(in alloc; "{faults} faults, stopped {stopped}, memory refused {refused}")
}

fn hex_of(alloc: Global, octets: &[u8]) -> Result<String, AllocError> {
    let mut text = String::new(alloc);
    for octet in octets {
        text.push_str(format!(in alloc; "{octet:02x}")?.as_str())?;
    }
    Ok(text)
}

/// A disk, and what was answered.
pub type Answered = (MemoryDisk, Result<String, AllocError>);

fn create(alloc: Global, disk: MemoryDisk) -> Answered {
    match Journal::create(alloc, disk) {
        Ok(journal) => {
            let answer = format!(in alloc; "{}", journal.used());
            (journal.into_disk(), answer)
        }
        Err((fault, disk)) => (disk, format!(in alloc; "{fault}")),
    }
}

/// What the journal of a disk is recovered as.
pub fn recover(alloc: Global, disk: MemoryDisk) -> Answered {
    match Journal::recover(alloc, disk) {
        Ok((journal, entries)) => {
            let answer = told(alloc, journal.used(), &entries);
            (journal.into_disk(), answer)
        }
        Err((fault, disk)) => (disk, format!(in alloc; "{fault}")),
    }
}

fn append_frame(alloc: Global, disk: MemoryDisk, words: &str) -> Answered {
    match Journal::recover(alloc, disk) {
        Ok((mut journal, stored)) => {
            let answer = append_by(alloc, &mut journal, &stored, words);
            (journal.into_disk(), answer)
        }
        Err((fault, disk)) => (disk, format!(in alloc; "{fault}")),
    }
}

fn append_by(
    alloc: Global,
    journal: &mut Journal<MemoryDisk>,
    before: &Entries,
    words: &str,
) -> Result<String, AllocError>
    requires { Keeps (Some (pending_of journal.old.disk)) before.now }
{
    let (number, words) = split(words);
    if words != "" {
        journal.steer(orders(alloc, words)?);
    }
    let batch = batch_of(alloc, number.parse().unwrap_or(0))?;
    match append(journal, before, &batch) {
        Ok(()) => format!(in alloc; "{}", journal.used()),
        Err(fault) => format!(in alloc; "{fault}"),
    }
}

// Makes a journal on the disk, and does with it as the step says.
fn on_journal(
    alloc: Global,
    disk: &mut MemoryDisk,
    word: &str,
    rest: &str,
) -> Result<String, AllocError> {
    let taken = mem::replace(disk, MemoryDisk::new(alloc));
    let (back, answer) = match word {
        "create" => create(alloc, taken),
        "recover" => recover(alloc, taken),
        _ => append_frame(alloc, taken, rest),
    };
    *disk = back;
    answer
}

fn answer(alloc: Global, disk: &mut MemoryDisk, step: &str) -> Result<String, AllocError> {
    let (word, rest) = split(step);
    match word {
        "fail" | "stop" => {
            disk.steer(orders(alloc, step)?);
            Ok(String::new(alloc))
        }
        "create" | "recover" | "append" => on_journal(alloc, disk, word, rest),
        "content" => String::from_str(alloc, text_of(disk.content())),
        "octets" => hex_of(alloc, disk.content()),
        "old" => left(alloc, disk, Pick::Old),
        "new" => left(alloc, disk, Pick::New),
        "torn" => left(alloc, disk, Pick::Torn),
        "state" => state(alloc, disk),
        _ => String::from_str(alloc, call(disk, word, rest)),
    }
}

// The first row of a disk that holds these octets at first which isn't so, and what was answered.
fn wrong_row<'a>(
    alloc: Global,
    start: &[u8],
    rows: &'a str,
) -> Result<Option<(&'a str, String)>, AllocError> {
    let mut disk = MemoryDisk::holding(alloc, start)?;
    for row in rows.split_terminator(';') {
        let (step, expected) = row.split_once('=').unwrap_or((row, ""));
        let answer = answer(alloc, &mut disk, step.trim())?;
        if !answer.split_whitespace().eq(expected.split_whitespace()) {
            return Ok(Some((row, answer)));
        }
    }
    Ok(None)
}

/// Each row of a disk that holds these octets at first is so.
pub fn check(rt: &impl Abort, alloc: Global, start: &[u8], rows: &str) -> Result<(), Fail> {
    assert_eq!(rt; wrong_row(alloc, start, rows)?, None);
    Ok(())
}
