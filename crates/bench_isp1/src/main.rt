// Feeds a stream of PDUs to a feeder in pieces, or copies the same pieces, so that the two can be
// timed.
//
// The words are `feed ROUNDS` or `copy ROUNDS`; with none, it is one round of `feed`. A round is
// 720,896 octets: 64 PDUs of 11,264 octets with their headers, in 11 pieces of 64 KiB.
#![tactic(auto)]

use isp1_tml::{Feeder, head};
use std::alloc::{AllocError, Global};
use std::{env, io};

const BODY: usize = 11_256;

const MESSAGES: u8 = 64;

const PIECE: usize = 65_536;

// The octets of one round.
fn round(alloc: Global) -> Result<Vec<u8>, AllocError> {
    let body = vec![in alloc; 0x5au8; BODY]?;
    let mut octets = Vec::new(alloc);
    for _ in 0..MESSAGES {
        octets.extend_from_slice(&head(1, BODY as u32))?;
        octets.extend_from_slice(&body)?;
    }
    Ok(octets)
}

// Feeds the octets, takes each message once it is whole, and answers how many there were.
fn feed(feeder: &mut Feeder, octets: &[u8]) -> u64 {
    let mut messages = 0u64;
    for piece in octets.chunks(PIECE) {
        if feeder.feed(piece) != Ok(piece.len()) {
            return messages;
        }
        for _ in 0..piece.len() {
            let Ok(Some(_)) = feeder.next_message() else {
                break;
            };
            messages = messages.saturating_add(1);
        }
    }
    messages
}

// Copies the octets piece by piece to one place.
fn copy(into: &mut Vec<u8>, octets: &[u8]) -> Result<(), AllocError> {
    for piece in octets.chunks(PIECE) {
        into.clear();
        into.extend_from_slice(piece)?;
    }
    Ok(())
}

fn main(rt: HostRuntime) -> io::Result<()> {
    let mut words = env::args(&rt)?.skip(1);
    let copies = words.next().is_some_and(|word| word.as_str() == "copy");
    let rounds = words
        .next()
        .and_then(|word| word.parse::<u32>().ok())
        .unwrap_or(1);
    let octets = round(rt.alloc())?;
    let Ok(mut feeder) = Feeder::new(rt.alloc()) else {
        return Err(AllocError.into());
    };
    let mut kept = Vec::new(rt.alloc());
    let mut messages = 0u64;
    for _ in 0..rounds {
        if copies {
            copy(&mut kept, &octets)?;
        } else {
            messages = messages.saturating_add(feed(&mut feeder, &octets));
        }
    }
    let round = octets.len();
    println!(rt; "{rounds} rounds of {round} octets, {messages} messages")
}
