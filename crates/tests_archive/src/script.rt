// Scripts: calls of an archive and orders to its disk, and what is answered, as a text.
//
// A step is a word and, behind a dash, a number. `frame` and `seal` offer a frame of three octets
// and a seal, whose number is their time in seconds; `store` and `reopen` are calls; `restart` takes
// the disk away, restarts it if it stopped, and opens its archive. `fail` is an order to the disk:
// this counted call from now on fails. By `keep` and `lose` it stops there, and what is pending
// then takes effect or not.

use cds_time::{Cds, Rest};
use disk_model::{MemoryDisk, Orders, Pick, Stop};
use frame_archive::{FrameArchive, Landing, Stored, open_archive};
use octet_core::{FailingCalls, Octets};
use record_form::{Entries, Entry};
use sle_numbers::FrameQuality;
use std::alloc::{AllocError, Global};

type Archive = FrameArchive<MemoryDisk>;

// A file of no entries.
const NEW_FILE: &[u8] = b"SLEA\x00\x00\x00\x01\x00";

fn time(number: u8) -> Cds {
    Cds {
        days: 20_000,
        millis: u32::from(number) * 1_000,
        rest: Rest::Micros(0),
    }
}

fn frame(alloc: Global, number: u8) -> Result<Entry, AllocError> {
    Ok(Entry::Frame {
        ert: time(number),
        quality: FrameQuality::Good,
        antenna: Octets::copy_of(alloc, b"A")?,
        lost: 0,
        octets: Octets::copy_of(alloc, &[0, 0x10, number.wrapping_add(0xa0)])?,
    })
}

// The numbers of the frames among entries, each with a blank before it.
fn numbers(alloc: Global, entries: &Entries) -> Result<String, AllocError> {
    let mut text = String::new(alloc);
    for entry in entries.as_slice() {
        if let Entry::Frame { ert, .. } = entry {
            let number = ert.millis / 1_000;
            text.push_str(format!(in alloc; " {number}")?.as_str())?;
        }
    }
    Ok(text)
}

fn offer(alloc: Global, archive: &mut Archive, entry: Entry) -> Result<String, AllocError> {
    if !entry.is_valid() {
        return Err(AllocError);
    }
    match archive.offer(entry) {
        Ok(()) => format!(in alloc; "taken; "),
        Err((fault, _)) => format!(in alloc; "{fault}; "),
    }
}

fn told_stored(alloc: Global, batch: &Stored) -> Result<String, AllocError> {
    let count = batch.count;
    let numbers = numbers(alloc, &batch.entries)?;
    format!(in alloc; "stored {count}:{numbers}; ")
}

fn store(alloc: Global, archive: &mut Archive) -> Result<String, AllocError> {
    match archive.store() {
        Ok(stored) => told_stored(alloc, &stored),
        Err(fault) => format!(in alloc; "{fault}; "),
    }
}

fn told_landing(alloc: Global, landing: &Landing) -> Result<String, AllocError> {
    let landed = numbers(alloc, &landing.landed)?;
    let lost = numbers(alloc, &landing.lost)?;
    format!(in alloc; "landed:{landed} lost:{lost}; ")
}

fn reopen(alloc: Global, archive: &mut Archive) -> Result<String, AllocError> {
    match archive.reopen() {
        Ok(landing) => told_landing(alloc, &landing),
        Err(fault) => format!(in alloc; "{fault}; "),
    }
}

fn failing(alloc: Global, call: u64) -> Result<Orders, AllocError> {
    Ok(Orders {
        failing: FailingCalls::new(vec![in alloc; call]?),
        stop: None,
    })
}

fn stopping(alloc: Global, calls: u64, pick: Pick) -> Orders {
    Orders {
        failing: FailingCalls::new(Vec::new(alloc)),
        stop: Some(Stop { calls, pick }),
    }
}

fn open(alloc: Global, disk: MemoryDisk, capacity: u64) -> Result<(Archive, Entries), AllocError> {
    match open_archive(alloc, disk, capacity.min(268_435_456)) {
        Ok(opened) => Ok(opened),
        Err(_) => Err(AllocError),
    }
}

// As a process does that starts again.
fn restart(
    alloc: Global,
    archive: Archive,
    capacity: u64,
) -> Result<(Archive, String), AllocError> {
    let mut disk = archive.into_disk();
    disk.steer(failing(alloc, 0)?);
    disk.restart()?;
    let (archive, entries) = open(alloc, disk, capacity)?;
    let found = numbers(alloc, &entries)?;
    Ok((archive, format!(in alloc; "found:{found}; ")?))
}

// Makes a step other than a restart.
fn answer(alloc: Global, archive: &mut Archive, step: &str) -> Result<String, AllocError> {
    let (name, number) = step.split_once('-').unwrap_or((step, ""));
    let number = number.parse().unwrap_or(0);
    match name {
        "frame" => return offer(alloc, archive, frame(alloc, number)?),
        "seal" => return offer(alloc, archive, Entry::Seal { at: time(number) }),
        "store" => return store(alloc, archive),
        "reopen" => return reopen(alloc, archive),
        "fail" => archive.steer(failing(alloc, u64::from(number))?),
        "keep" => archive.steer(stopping(alloc, u64::from(number), Pick::New)),
        _ => archive.steer(stopping(alloc, u64::from(number), Pick::Old)),
    }
    Ok(String::new(alloc))
}

/// What each step answers, and at the end how many entries are acknowledged, how many octets the
/// file uses and how many entries wait.
pub fn play(alloc: Global, capacity: u64, steps: &str) -> Result<String, AllocError> {
    let mut text = String::new(alloc);
    let (mut archive, _) = open(alloc, MemoryDisk::holding(alloc, NEW_FILE)?, capacity)?;
    for step in steps.split_whitespace() {
        if step == "restart" {
            let (again, found) = restart(alloc, archive, capacity)?;
            archive = again;
            text.push_str(found.as_str())?;
        } else {
            text.push_str(answer(alloc, &mut archive, step)?.as_str())?;
        }
    }
    let end = format!(in alloc;
        "{} in {}, {} wait",
        archive.count(),
        archive.used(),
        archive.waiting()
    )?;
    text.push_str(end.as_str())?;
    Ok(text)
}
