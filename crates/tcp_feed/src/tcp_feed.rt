// A source of entries over TCP.
ghost use Rattle.std.specs.Prelude.{◌≡◌, IfOk};
ghost use Rattle.recorder.specs.Feeds.{IsValidFeed};

use crate::heard::Heard;
use bell::{Bells, Waiter};
use octet_core::{Faults, Memory};
use operator_side::{Listening, Place, Stop, Uptime};
use recorder::{Feed, FrameSource};
use station_board::Board;
use std::alloc::Global;
use std::io::Write;
use std::marker::Model;

// How many lines that say nothing are passed over in a call.
const SKIPPED_LINES: u32 = 1_000;

/// A source of entries over a TCP port or a Unix socket. One connection at a time is heard, which
/// writes a line an entry (`frame`, `loss`, `production` or `mark` of a script); empty lines and
/// comments are passed over. It tells none of its answers.
///
/// A line counts once its line end has come. Another line, one that is longer than a frame of 65,536
/// octets needs, and a stream that breaks end the connection: then nothing has come yet, so that what
/// came before is stored, and the next connection is heard. A connection that says something while
/// nothing has come of the older one for ten seconds takes its place; any other is closed.
///
/// Without a stop the end of the first connection is the end, or a fault of each further call where
/// that connection was ended. Each connection, its end and what fails is reported in a line of text.
#[derive(Drop)]
pub struct TcpFeed<W: Write + Send + Drop> {
    heard: Heard,
    reports: W,
    faults: Faults,
}

impl<W: Write + Send + Drop> Model for TcpFeed<W> {
    ghost use Rattle.tcp_feed.specs.FeedState.{FeedState};

    ghost Value = { FeedState };

    ghost view = { λ feed. record { faults = feed.faults } };
}

impl<W: Write + Send + Drop> TcpFeed<W> {
    /// A source that listens so, and which reports to this writer.
    pub fn new(
        alloc: Global,
        listening: Listening,
        time: Uptime,
        reports: W,
    ) -> Result<TcpFeed<W>, Memory>
        ensures { IfOk result (λ feed. feed ≡ record { faults = 0 }) }
    {
        Ok(TcpFeed {
            heard: Heard::new(alloc, listening, time)?,
            reports,
            faults: Faults::new(),
        })
    }

    /// Has it end at this stop, for which it looks at each call that has no line left to give, and
    /// go on with the next connection where one ends before.
    pub fn end_at(&mut self, stop: Stop)
        ensures { self.new ≡ self.old }
    {
        self.heard.stop = Some(stop);
    }

    /// Has it wait with this waiter, for five seconds at most, in the first call of a recorder's step,
    /// and ring these bells after entries that it gave were published.
    pub fn wait_with(&mut self, waiter: Waiter, bells: Bells)
        ensures { self.new ≡ self.old }
    {
        let heard = &mut self.heard;
        heard
            .pacing
            .wait_with(waiter, bells, &heard.sources.listening);
    }

    /// Has it tell this board of each connection and each line.
    pub fn tell_board(&mut self, board: Board)
        ensures { self.new ≡ self.old }
    {
        self.heard.board = Some(board);
    }

    /// Where it listens: with the system's port where it was told port 0.
    pub fn place(&self) -> &Place {
        self.heard.sources.listening.place()
    }

    /// How often a call has failed.
    pub fn faults(&self) -> u64
        ensures { result ≡ self.now.faults }
    {
        self.faults.count()
    }

    /// What it reports to.
    pub fn reports(&self) -> &W {
        &self.reports
    }
}

// What the lines that have come say next, with those that say nothing passed over.
fn next_of<W: Write>(heard: &mut Heard, reports: &mut W) -> Feed
    ensures { IsValidFeed result }
{
    for _ in 0..SKIPPED_LINES {
        if let Some(feed) = heard.go_on(reports) {
            return feed;
        }
    }
    Feed::NotYet
}

impl<W: Write + Send + Drop> FrameSource for TcpFeed<W> {
    ghost use Rattle.std.specs.Prelude.{None};

    ghost answers = { λ feed. None };

    ghost faults = { λ feed. feed.faults };

    /// The entry of the next line that says one, once it has come whole. A call that begins a
    /// recorder's step waits for it, if it has a waiter to wait with.
    fn next(&mut self) -> Feed {
        self.heard.pacing.begin();
        let feed = next_of(&mut self.heard, &mut self.reports);
        self.heard.pacing.end(matches!(&feed, Feed::Entry(_)));
        if matches!(&feed, Feed::Failed) {
            let _ = self.faults.fail::<()>();
        }
        feed
    }
}
