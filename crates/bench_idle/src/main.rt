// Has links over TCP poll on which nothing arrives, so that what they cost can be measured.
//
// The words are `LINKS POLLS WAIT`: so many links over the loopback make so many polls each, at a
// wait of so many milliseconds, each on a thread of its own. A line tells how many polls heard
// nothing. With no words, two links make three polls at a wait of 10.
#![tactic(auto)]

use bell::Waiter;
use link_model::{Link, Poll};
use std::alloc::Global;
use std::net::{Net, TcpListener, TcpStream};
use std::thread::{Threads, for_each_mut};
use std::time::Duration;
use std::{env, io};
use tcp_link::TcpLink;

/// A link, its peer's stream, and how many of its polls heard nothing.
#[derive(Drop)]
struct Line {
    link: TcpLink,
    _peer: TcpStream,
    idle: u32,
}

impl Line {
    fn poll(&mut self, polls: u32) {
        let mut into = [0; 4096];
        for _ in 0..polls {
            if self.link.poll(&mut into) == Poll::Nothing {
                self.idle = self.idle.saturating_add(1);
            }
        }
    }
}

fn lines_of<R: Net<Stream = TcpStream, Listener = TcpListener>>(
    rt: &R,
    alloc: Global,
    links: u32,
    wait: Duration,
) -> io::Result<Vec<Line>> {
    let listener = TcpListener::bind(rt, "127.0.0.1:0")?;
    let mut lines = Vec::new(alloc);
    for _ in 0..links {
        let peer = TcpStream::connect(rt, listener.local_addr()?)?;
        let (stream, _) = listener.accept()?;
        lines.push(Line {
            link: TcpLink::new(alloc, stream, Waiter::new(rt, alloc)?, wait)?,
            _peer: peer,
            idle: 0,
        })?;
    }
    Ok(lines)
}

fn poll_all<R: Threads + Sync>(rt: &R, lines: &mut [Line], polls: u32) -> u32 {
    for_each_mut(rt, lines, 64, &|_, line: &mut Line| line.poll(polls));
    let mut idle = 0u32;
    for line in lines {
        idle = idle.saturating_add(line.idle);
    }
    idle
}

/// The number that the next word is, or else this one.
fn number(word: Option<String>, otherwise: u32) -> u32 {
    word.and_then(|word| word.parse::<u32>().ok())
        .unwrap_or(otherwise)
}

fn main(rt: HostRuntime) -> io::Result<()> {
    let mut words = env::args(&rt)?.skip(1);
    let links = number(words.next(), 2);
    let polls = number(words.next(), 3);
    let wait = Duration::from_millis(u64::from(number(words.next(), 10)));
    let mut lines = lines_of(&rt, rt.alloc(), links, wait)?;
    let idle = poll_all(&rt, &mut lines, polls);
    println!(rt; "{links} links, {polls} polls each, {idle} heard nothing")
}
