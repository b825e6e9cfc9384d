// Tells a stream of frames as lines, or takes its messages alone, so that the two can be timed.
//
// The words are `lines ROUNDS` or `messages ROUNDS`; with none, it is one round of each. A round is
// 741,120 octets: 640 transfer buffers of one frame of 1,115 octets, in pieces of 64 KiB. A line
// tells how many octets of lines, or messages, there were.
#![tactic(auto)]

use isp1_tml::{Feeder, head};
use octet_core::{Memory, Octets};
use sle_common::InstanceId;
use sle_numbers::ServiceType;
use std::alloc::{AllocError, Global};
use std::{env, io};
use user_core::{Heard, User};
use user_task::{Signing, Task, Work};

const INSTANCE: &str = "sagr=1.spack=P.rsl-fg=1.raf=onlc1";

const FRAMES: u32 = 640;

const PIECE: usize = 65_536;

/// A transfer buffer of RAF (CCSDS 911.1-B, annex A) before its frame's octets: received at
/// 20000/1000/0 by the antenna 41, good, with none lost before it.
const FRONT: &[u8] = b"\
\xa8\x82\x04\x7a\xa0\x82\x04\x76\x80\x00\x80\x08\x4e\x20\x00\x00\x03\xe8\x00\x00\x81\x01\x41\
\x02\x01\x00\x02\x01\x00\x80\x00\x04\x82\x04\x5b";

const FRAME: [u8; 1_115] = [0x5a; 1_115];

/// The octets of one round.
fn round(alloc: Global) -> Result<Vec<u8>, AllocError> {
    let length = FRONT.len() + FRAME.len();
    let mut octets = Vec::new(alloc);
    for _ in 0..FRAMES {
        octets.extend_from_slice(&head(1, length as u32))?;
        octets.extend_from_slice(FRONT)?;
        octets.extend_from_slice(&FRAME)?;
    }
    Ok(octets)
}

/// Has a user hear the octets, and answers how many octets of lines it printed.
fn print(user: &mut User, octets: &[u8]) -> Result<u64, Memory> {
    let mut printed = 0u64;
    for piece in octets.chunks(PIECE) {
        let turned = user.turn(0, false, false, Heard::Octets(piece))?;
        printed = printed.saturating_add(turned.lines.len() as u64);
    }
    Ok(printed)
}

/// Feeds the octets, takes each message once it is whole, and answers how many there were.
fn feed(feeder: &mut Feeder, octets: &[u8]) -> u64 {
    let mut messages = 0u64;
    for piece in octets.chunks(PIECE) {
        if feeder.feed(piece) != Ok(piece.len()) {
            return messages;
        }
        for _ in 0..piece.len() {
            let Ok(Some(_)) = feeder.next_message() else {
                break;
            };
            messages = messages.saturating_add(1);
        }
    }
    messages
}

/// One who reads a stream of RAF.
fn reader(alloc: Global) -> Result<Task, Memory> {
    Ok(Task {
        name: Octets::new(alloc),
        signing: Signing::Unused,
        instance: InstanceId::parse_text(alloc, INSTANCE).map_err(|_| Memory)?,
        draw: 0,
        work: Work::Show {
            service: ServiceType::RtnAllFrames,
        },
    })
}

fn printed(alloc: Global, octets: &[u8], rounds: u32) -> Result<u64, Memory> {
    let task = reader(alloc)?;
    if !task.fits() {
        return Ok(0);
    }
    let mut user = User::new(alloc, task);
    let mut printed = 0u64;
    for _ in 0..rounds {
        printed = printed.saturating_add(print(&mut user, octets)?);
    }
    Ok(printed)
}

fn fed(alloc: Global, octets: &[u8], rounds: u32) -> Result<u64, AllocError> {
    let Ok(mut feeder) = Feeder::new(alloc) else {
        return Err(AllocError);
    };
    let mut messages = 0u64;
    for _ in 0..rounds {
        messages = messages.saturating_add(feed(&mut feeder, octets));
    }
    Ok(messages)
}

fn run(rt: &HostRuntime, word: &str, rounds: u32) -> io::Result<()> {
    let octets = round(rt.alloc())?;
    let count = match word {
        "lines" => printed(rt.alloc(), &octets, rounds).map_err(AllocError::from)?,
        _ => fed(rt.alloc(), &octets, rounds)?,
    };
    let size = octets.len();
    println!(rt; "{word}: {rounds} rounds of {size} octets, {count}")
}

fn main(rt: HostRuntime) -> io::Result<()> {
    let mut words = env::args(&rt)?.skip(1);
    let Some(word) = words.next() else {
        run(&rt, "lines", 1)?;
        return run(&rt, "messages", 1);
    };
    let rounds = words
        .next()
        .and_then(|word| word.parse::<u32>().ok())
        .unwrap_or(1);
    run(&rt, word.as_str(), rounds)
}
