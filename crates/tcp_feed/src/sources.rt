// The connections of sources: the one that is heard, and the next one.

use crate::log;
use operator_side::{Listening, Passing, Peer, Uptime, is_early, is_passing, report};
use std::alloc::Global;
use std::io;
use std::io::Write;
use std::net::TcpStream;
use std::time::Duration;

// How many seconds a source may say nothing before another takes its place, and how many one may
// that waits for that.
pub(crate) const SILENCE_SECONDS: u64 = 10;

/// A source's connection.
#[derive(Drop)]
pub(crate) struct Source {
    pub stream: TcpStream,
    pub peer: Peer,
    // When octets came last, or else the connection itself.
    pub last: Duration,
}

/// The connections of sources.
#[derive(Drop)]
pub(crate) struct Sources {
    pub alloc: Global,
    pub listening: Listening,
    pub time: Uptime,
    /// The one that is heard.
    pub heard: Option<Source>,
    // One that came meanwhile and hasn't said anything yet.
    next: Option<Source>,
    passing: Passing,
}

/// What came of accepting a connection.
#[derive(Drop)]
pub(crate) enum Accepted {
    /// One has come.
    Source,
    /// None yet.
    None,
    /// None now, but perhaps later.
    Passing,
    /// None ever again.
    Never(io::Error),
}

/// What is to be done with the next source.
enum Judged {
    /// It waits.
    Waits,
    /// It is gone.
    Gone,
    /// It has spoken, and the one that is heard is silent.
    Follows,
    /// It has spoken, and the one that is heard isn't silent.
    Refused,
    /// It said nothing for too long.
    Silent,
}

impl Sources {
    /// None yet, at this place.
    pub fn new(alloc: Global, listening: Listening, time: Uptime) -> Sources {
        Sources {
            alloc,
            listening,
            time,
            heard: None,
            next: None,
            passing: Passing::new(),
        }
    }

    /// Takes the next connection as the one that is heard.
    pub fn accept<W: Write>(&mut self, reports: &mut W) -> Accepted {
        if self.next.is_none() {
            match self.accept_next(reports) {
                Accepted::Source => {}
                answer => return answer,
            }
        }
        self.heard = self.next.take();
        Accepted::Source
    }

    // Takes the connection that has come as the next one.
    fn accept_next<W: Write>(&mut self, reports: &mut W) -> Accepted {
        match self.listening.accept() {
            Ok((stream, peer)) => {
                self.next = Some(Source {
                    stream,
                    peer,
                    last: self.time.now(),
                });
                Accepted::Source
            }
            Err(error) if is_early(&error) => Accepted::None,
            Err(error) if is_passing(&error) => {
                if self.passing.is_due(self.time) {
                    report(
                        reports,
                        log::not_accepted(self.alloc, self.listening.place(), &error),
                    );
                }
                Accepted::Passing
            }
            Err(error) => Accepted::Never(error),
        }
    }

    /// Looks at the connection that came while another is heard: true if it is to take its place.
    pub fn has_follower<W: Write>(&mut self, reports: &mut W) -> bool {
        if self.next.is_none() {
            let _ = self.accept_next(reports);
        }
        match self.judge() {
            Judged::Waits => false,
            Judged::Follows => true,
            Judged::Gone => {
                self.next = None;
                false
            }
            Judged::Refused => {
                self.close_next("another source is heard", reports);
                false
            }
            Judged::Silent => {
                self.close_next("nothing heard for 10 s", reports);
                false
            }
        }
    }

    // Says what is to be done with the next source.
    fn judge(&self) -> Judged {
        let Some(next) = &self.next else {
            return Judged::Waits;
        };
        match next.stream.peek(&mut [0]) {
            Ok(0) => Judged::Gone,
            Ok(_) if self.has_more() => Judged::Waits,
            Ok(_) if self.is_silent(&self.heard) => Judged::Follows,
            Ok(_) => Judged::Refused,
            Err(error) if !is_early(&error) => Judged::Gone,
            Err(_) if self.is_silent(&self.next) => Judged::Silent,
            Err(_) => Judged::Waits,
        }
    }

    // True if the source that is heard has sent more, or has ended meanwhile: that is read first.
    fn has_more(&self) -> bool {
        let Some(heard) = &self.heard else {
            return false;
        };
        match heard.stream.peek(&mut [0]) {
            Ok(_) => true,
            Err(error) => !is_early(&error),
        }
    }

    // True if nothing came of a source for too long.
    fn is_silent(&self, source: &Option<Source>) -> bool {
        match source {
            Some(source) => {
                let limit = Duration::from_secs(SILENCE_SECONDS);
                self.time.has_passed(limit, source.last)
            }
            None => true,
        }
    }

    // Closes the next source, and reports why.
    fn close_next<W: Write>(&mut self, why: &str, reports: &mut W) {
        if let Some(next) = self.next.take() {
            report(
                reports,
                log::closed(self.alloc, self.listening.place(), next.peer, why),
            );
        }
    }
}
