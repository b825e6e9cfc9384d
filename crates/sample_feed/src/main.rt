// Listens as a source of entries over TCP, and tells each of its answers in a line.
//
// The words are `ADDRESS PAUSES`. Standard error says where it listens, and what fails. Where
// nothing has come yet it pauses for a millisecond, so many times at most. Behind the end or a
// fault it asks once more.
#![tactic(auto)]

use operator_side::{Listening, Place, Uptime};
use record_form::Entry;
use recorder::{Feed, FrameSource};
use std::net::SocketAddr;
use std::process::ExitCode;
use std::thread::sleep;
use std::time::{Clock, Duration};
use std::{env, io};
use tcp_feed::TcpFeed;

const PAUSE_MILLIS: u64 = 1;

const MOST_ANSWERS: u32 = 1_000_000;

fn word(answer: &Feed) -> &'static str {
    match answer {
        Feed::Entry(Entry::Frame { .. }) => "frame",
        Feed::Entry(Entry::LossOfSync { .. }) => "loss",
        Feed::Entry(Entry::Production { .. }) => "production",
        Feed::Entry(Entry::Seal { .. }) => "mark",
        Feed::NotYet => "nothing",
        Feed::End => "end",
        Feed::Failed => "failed",
        Feed::Memory => "memory",
    }
}

// The next answer that isn't `NotYet`, or that one behind so many pauses.
fn wait<C: Clock, F: FrameSource>(clock: &C, feed: &mut F, pauses: u32) -> Feed {
    for _ in 0..pauses {
        match feed.next() {
            Feed::NotYet => sleep(clock, Duration::from_millis(PAUSE_MILLIS)),
            answer => return answer,
        }
    }
    feed.next()
}

// Tells the answers up to the first that is no entry, a million at most, and the one behind it.
fn tell<F: FrameSource>(rt: &HostRuntime, feed: &mut F, pauses: u32) -> io::Result<()> {
    for _ in 0..MOST_ANSWERS {
        let answer = wait(rt, feed, pauses);
        println!(rt; "{}", word(&answer))?;
        if !matches!(answer, Feed::Entry(_)) {
            break;
        }
    }
    println!(rt; "{}", word(&feed.next()))
}

fn main(rt: HostRuntime) -> io::Result<ExitCode> {
    let mut words = env::args(&rt)?.skip(1);
    let (Some(address), Some(pauses)) = (words.next(), words.next()) else {
        return Err(io::ErrorKind::InvalidInput.into());
    };
    let (Ok(address), Ok(pauses)) = (address.parse::<SocketAddr>(), pauses.parse::<u32>()) else {
        return Err(io::ErrorKind::InvalidInput.into());
    };
    let listening = Listening::open(&rt, Place::Port(address))?;
    let Ok(mut feed) = TcpFeed::new(rt.alloc(), listening, Uptime::new(&rt), rt.stderr()) else {
        return Ok(ExitCode::FAILURE);
    };
    eprintln!(rt; "feed at {}", feed.place())?;
    tell(&rt, &mut feed, pauses)?;
    Ok(ExitCode::SUCCESS)
}
