// Connections that haven't spoken yet.

use crate::log::{never_heard, not_accepted};
use operator_side::{Passing, Uptime, is_early, is_passing, report};
use std::alloc::{AllocError, Global};
use std::io;
use std::io::Write;
use std::net::{SocketAddr, TcpListener, TcpStream};
use std::time::Duration;

// For how many milliseconds a door waits until it looks again: for a connection that came less than
// so many milliseconds ago, and for one that is older.
const YOUNG_MILLIS: u64 = 50;

const SOON_MILLIS: u64 = 1;

const LATER_MILLIS: u64 = 10;

// How long it waits for a connection, and after an error of accepting one that passes.
const LOOK_MILLIS: u64 = 500;

const RETRY_MILLIS: u64 = 100;

/// A connection.
#[derive(Drop)]
pub(crate) struct Caller {
    pub stream: TcpStream,
    pub peer: SocketAddr,
    // When it was accepted.
    since: Duration,
}

// What a connection has said.
enum Said {
    Something,
    Nothing,
    // It is gone, and has never said anything.
    Gone,
    TooLong,
}

/// What a look at the connections finds.
#[derive(Drop)]
pub(crate) enum Found {
    /// One that has spoken.
    Caller(Caller),
    /// None: another look is due so many milliseconds later.
    None(u64),
}

/// The connections to a port that haven't spoken yet, the oldest first.
#[derive(Drop)]
pub(crate) struct Callers {
    alloc: Global,
    address: SocketAddr,
    time: Uptime,
    // How long one may say nothing, and how many are kept at most.
    silence: Duration,
    most: usize,
    waiting: Vec<Caller>,
    passing: Passing,
}

impl Caller {
    // What it has said.
    fn said(&self, time: Uptime, silence: Duration) -> Said {
        match self.stream.peek(&mut [0]) {
            Ok(0) => Said::Gone,
            Ok(_) => Said::Something,
            Err(error) if !is_early(&error) => Said::Gone,
            Err(_) if time.has_passed(silence, self.since) => Said::TooLong,
            Err(_) => Said::Nothing,
        }
    }
}

impl Callers {
    /// No connection of this port yet.
    pub fn new(alloc: Global, address: SocketAddr, time: Uptime, silence: Duration) -> Callers {
        Callers {
            alloc,
            address,
            time,
            silence,
            most: 0,
            waiting: Vec::new(alloc),
            passing: Passing::new(),
        }
    }

    /// Has it keep so many connections more.
    pub fn keep_more(&mut self, count: usize) -> Result<(), AllocError> {
        let most = self.most.saturating_add(count);
        self.waiting.reserve(most)?;
        self.most = most;
        Ok(())
    }

    /// Takes the connections that have come, and looks for one that has spoken.
    pub fn look<W: Write>(&mut self, listener: &TcpListener, reports: &mut W) -> io::Result<Found> {
        let is_passing = self.accept_all(listener, reports)?;
        if let Some(caller) = self.take_spoken(reports) {
            return Ok(Found::Caller(caller));
        }
        Ok(Found::None(self.pause(is_passing)))
    }

    // For how many milliseconds nothing is looked for.
    fn pause(&self, is_passing: bool) -> u64 {
        match self.waiting.last() {
            Some(last) if self.is_young(last) => SOON_MILLIS,
            Some(_) => LATER_MILLIS,
            None if is_passing => RETRY_MILLIS,
            None => LOOK_MILLIS,
        }
    }

    // True if a connection came just now.
    fn is_young(&self, caller: &Caller) -> bool {
        let age = self.time.now().saturating_sub(caller.since);
        age < Duration::from_millis(YOUNG_MILLIS)
    }

    // Takes the connections that have come, as many as are kept, and answers whether one can't be
    // taken now, but may be later.
    fn accept_all<W: Write>(
        &mut self,
        listener: &TcpListener,
        reports: &mut W,
    ) -> io::Result<bool> {
        let room = self.most.saturating_sub(self.waiting.len());
        for _ in 0..room {
            match listener.accept() {
                Ok((stream, peer)) => self.keep(stream, peer),
                Err(error) if is_early(&error) => return Ok(false),
                Err(error) if is_passing(&error) => {
                    self.tell(&error, reports);
                    return Ok(true);
                }
                Err(error) => return Err(error),
            }
        }
        Ok(false)
    }

    // Keeps a connection. One whose calls would wait, and one for which there is no room, is closed.
    fn keep(&mut self, stream: TcpStream, peer: SocketAddr) {
        if stream.set_nonblocking(true).is_err() {
            return;
        }
        let since = self.time.now();
        let _ = self.waiting.push(Caller {
            stream,
            peer,
            since,
        });
    }

    // Reports that a connection can't be taken now.
    fn tell<W: Write>(&mut self, error: &io::Error, reports: &mut W) {
        if self.passing.is_due(self.time) {
            report(reports, not_accepted(self.alloc, self.address, error));
        }
    }

    // Takes the oldest connection that has spoken, and closes those that are gone or silent too long.
    fn take_spoken<W: Write>(&mut self, reports: &mut W) -> Option<Caller> {
        let mut place = 0usize;
        for _ in 0..self.waiting.len() {
            match self.said(place)? {
                Said::Something => return self.take(place),
                Said::Nothing => place = place.saturating_add(1),
                Said::Gone => {
                    let _ = self.take(place);
                }
                Said::TooLong => self.give_up(place, reports),
            }
        }
        None
    }

    // What the connection at a place has said.
    fn said(&self, place: usize) -> Option<Said> {
        let caller = self.waiting.get(place)?;
        Some(caller.said(self.time, self.silence))
    }

    // Takes the connection at a place.
    fn take(&mut self, place: usize) -> Option<Caller> {
        if place < self.waiting.len() {
            Some(self.waiting.remove(place))
        } else {
            None
        }
    }

    // Closes the connection at a place, and reports that it said nothing.
    fn give_up<W: Write>(&mut self, place: usize, reports: &mut W) {
        if let Some(caller) = self.take(place) {
            report(
                reports,
                never_heard(self.alloc, self.address, caller.peer, self.silence),
            );
        }
    }
}
