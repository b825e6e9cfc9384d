// What is heard of sources.
ghost use Rattle.std.specs.Prelude.{IfSome};
ghost use Rattle.recorder.specs.Feeds.{IsValidFeed};

use crate::line_buffer::LineBuffer;
use crate::log;
use crate::log::Fault;
use crate::pacing::Pacing;
use crate::sources::{Accepted, Source, Sources};
use drill_text::{LineFault, ScriptLine, parse_line};
use octet_core::Memory;
use operator_side::{Listening, Peer, Stop, Uptime, is_early, report};
use recorder::Feed;
use station_board::Board;
use std::alloc::Global;
use std::io;
use std::io::Write;
use std::os::fd::AsRawFd;

// For how many milliseconds a call waits at most, and after an error of accepting a connection.
const WAIT_MILLIS: u64 = 1_000;

const RETRY_MILLIS: u64 = 100;

// The octets of the longest line, a frame's, with its end: a time of 25 characters with
// picoseconds, a quality of 1, an antenna of 32, a count of 8, and 65,536 octets of two characters
// each, the word `frame` and a blank before each.
const LONGEST_LINE: usize = 5 + 26 + 2 + 33 + 9 + 131_073 + 1;

/// The lines of one source after the other.
#[derive(Drop)]
pub(crate) struct Heard {
    alloc: Global,
    pub sources: Sources,
    pub pacing: Pacing,
    /// The stop at which it ends. Without one it ends with its first source.
    pub stop: Option<Stop>,
    /// What is told of each connection and each line, if anything is.
    pub board: Option<Board>,
    lines: LineBuffer,
    // How many lines of the source were taken.
    count: u64,
    // What each further call answers, once it has ended.
    ending: Ending,
}

// How it has ended, if it has.
#[derive(Clone, Copy, PartialEq, Eq)]
enum Ending {
    Open,
    End,
    Failed,
}

// What a read came to.
#[derive(Drop)]
enum Read {
    Octets,
    Nothing,
    End,
    NoSource,
    Broken(io::Error),
}

// Has the board told of a line.
fn tell_line(board: &Option<Board>) {
    if let Some(board) = board {
        board.line_came();
    }
}

// Has the board told of a connection from there.
fn tell_connected(board: &Option<Board>, peer: Peer) {
    if let Some(board) = board {
        board.source_connected(match peer {
            Peer::Port(address) => Some(address),
            Peer::Local => None,
        });
    }
}

// Has the board told that the connection ended.
fn tell_ended(board: &Option<Board>) {
    if let Some(board) = board {
        board.source_ended();
    }
}

impl Heard {
    /// Nothing has come yet.
    pub fn new(alloc: Global, listening: Listening, time: Uptime) -> Result<Heard, Memory> {
        Ok(Heard {
            alloc,
            sources: Sources::new(alloc, listening, time),
            pacing: Pacing::new(),
            stop: None,
            board: None,
            lines: LineBuffer::new(alloc, LONGEST_LINE)?,
            count: 0,
            ending: Ending::Open,
        })
    }

    /// Takes the next line, or hears more where none is whole: what is answered, or nothing yet. What
    /// ends a connection is reported.
    pub fn go_on<W: Write>(&mut self, reports: &mut W) -> Option<Feed>
        ensures { IfSome result IsValidFeed }
    {
        if self.lines.line().is_some() {
            return self.take_line(reports);
        }
        match self.ending {
            Ending::Open => {}
            Ending::End => return Some(Feed::End),
            Ending::Failed => return Some(Feed::Failed),
        }
        if self.is_stopped(reports) {
            return Some(Feed::End);
        }
        if self.lines.is_full() {
            return Some(self.refuse(&Fault::Long, reports));
        }
        self.hear(reports)
    }

    // Looks whether it is to stop.
    fn is_stopped<W: Write>(&self, reports: &mut W) -> bool {
        match &self.stop {
            Some(stop) => {
                stop.look(self.alloc, reports);
                stop.is_asked()
            }
            None => false,
        }
    }

    // What the next line says. It is taken unless memory was refused.
    fn take_line<W: Write>(&mut self, reports: &mut W) -> Option<Feed>
        ensures { IfSome result IsValidFeed }
    {
        let line = self.lines.line()?;
        let size = line.len();
        let found = match parse_line(self.alloc, line) {
            Ok(ScriptLine::Offer(entry)) => Some(Feed::Entry(entry)),
            Ok(ScriptLine::Skip) => None,
            Ok(_) | Err(LineFault::Bad) => return Some(self.refuse(&Fault::Line, reports)),
            Err(LineFault::Memory) => return Some(Feed::Memory),
        };
        self.lines.take_line(size);
        self.count = self.count.saturating_add(1);
        tell_line(&self.board);
        found
    }

    // Reads what has come, and answers if there is nothing.
    fn hear<W: Write>(&mut self, reports: &mut W) -> Option<Feed>
        ensures { IfSome result IsValidFeed }
    {
        match self.read() {
            Read::Octets => None,
            Read::NoSource => self.accept(reports),
            Read::Nothing => self.look_beside(reports),
            Read::End => Some(self.end(reports)),
            Read::Broken(error) => Some(self.refuse(&Fault::Stream(error), reports)),
        }
    }

    // Reads once.
    fn read(&mut self) -> Read {
        let now = self.sources.time.now();
        let Some(source) = &mut self.sources.heard else {
            return Read::NoSource;
        };
        match self.lines.read(&mut source.stream) {
            Ok(0) => Read::End,
            Ok(_) => {
                source.last = now;
                Read::Octets
            }
            Err(error) if is_early(&error) => Read::Nothing,
            Err(error) => Read::Broken(error),
        }
    }

    // Takes the next source, if one has come.
    fn accept<W: Write>(&mut self, reports: &mut W) -> Option<Feed>
        ensures { IfSome result IsValidFeed }
    {
        match self.sources.accept(reports) {
            Accepted::Source => {
                self.begin(None, reports);
                None
            }
            Accepted::None => self.not_yet(WAIT_MILLIS),
            Accepted::Passing => self.not_yet(RETRY_MILLIS),
            Accepted::Never(error) => {
                let place = self.sources.listening.place();
                report(reports, log::never(self.alloc, place, &error));
                self.ending = Ending::Failed;
                Some(Feed::NotYet)
            }
        }
    }

    // A source begins, perhaps in place of another.
    fn begin<W: Write>(&mut self, older: Option<Source>, reports: &mut W) {
        self.count = 0;
        let Some(source) = &self.sources.heard else {
            return;
        };
        self.pacing.watch(source.stream.as_raw_fd());
        tell_connected(&self.board, source.peer);
        let place = self.sources.listening.place();
        let line = match older {
            Some(older) => log::follows(self.alloc, place, source.peer, older.peer),
            None => log::connected(self.alloc, place, source.peer),
        };
        report(reports, line);
    }

    // Nothing has come of the source: another may take its place.
    fn look_beside<W: Write>(&mut self, reports: &mut W) -> Option<Feed>
        ensures { IfSome result IsValidFeed }
    {
        if !self.sources.has_follower(reports) {
            return self.not_yet(WAIT_MILLIS);
        }
        let older = self.close(reports);
        if let Accepted::Source = self.sources.accept(reports) {
            self.begin(older, reports);
        }
        None
    }

    // Nothing has come yet: waits if it may, and else answers so.
    fn not_yet(&mut self, millis: u64) -> Option<Feed>
        ensures { IfSome result IsValidFeed }
    {
        if self.pacing.wait(millis) {
            None
        } else {
            Some(Feed::NotYet)
        }
    }

    // The source's stream has ended: that is the end, or where a stop is, nothing yet.
    fn end<W: Write>(&mut self, reports: &mut W) -> Feed
        ensures { IsValidFeed result }
    {
        let _ = self.close(reports);
        if self.stop.is_some() {
            return Feed::NotYet;
        }
        self.ending = Ending::End;
        Feed::End
    }

    // Closes the source, and reports that it ended.
    fn close<W: Write>(&mut self, reports: &mut W) -> Option<Source> {
        let is_cut = self.lines.clear();
        let source = self.sources.heard.take()?;
        tell_ended(&self.board);
        let place = self.sources.listening.place();
        report(
            reports,
            log::ended(self.alloc, place, source.peer, self.count, is_cut),
        );
        Some(source)
    }

    // Ends the source's connection at its next line, and reports why. What came before it is stored,
    // since nothing more has come yet. Without a stop each further call fails.
    fn refuse<W: Write>(&mut self, fault: &Fault, reports: &mut W) -> Feed
        ensures { IsValidFeed result }
    {
        let _ = self.lines.clear();
        if let Some(source) = self.sources.heard.take() {
            tell_ended(&self.board);
            let place = self.sources.listening.place();
            report(
                reports,
                log::refused(self.alloc, place, source.peer, self.count, fault),
            );
        }
        if self.stop.is_none() {
            self.ending = Ending::Failed;
        }
        Feed::NotYet
    }
}
