// A source of entries and an antenna that only a run has.

use crate::fullness::Fullness;
use antenna_core::Antenna;
use antenna_file::FileAntenna;
use bell::Bells;
use counted_calls::{CountedAntenna, CountedFrames};
use octet_core::{Failed, Faults};
use operator_side::Stamped;
use recorder::{Feed, FrameSource};
use station_board::Board;
use std::io::Write;
use tcp_feed::TcpFeed;

/// A source of entries over TCP, or none yet, which opens no socket and has come to its end.
#[derive(Drop)]
pub struct LateFrames<W: Write + Send + Drop> {
    /// The source, if there is one.
    pub feed: Option<CountedFrames<TcpFeed<W>>>,
    /// What watches the archive into which its entries go, if anything does.
    pub fullness: Option<Fullness>,
}

impl<W: Write + Send + Drop> FrameSource for LateFrames<W> {
    ghost use Rattle.std.specs.Prelude.{None, option_map, unwrap_or};

    ghost answers = { λ _. None };

    ghost faults = { λ frames. unwrap_or (option_map (λ feed. feed.frames.faults) frames.feed) 0 };

    fn next(&mut self) -> Feed {
        if let Some(fullness) = &mut self.fullness {
            fullness.begin();
        }
        let answer = match &mut self.feed {
            Some(feed) => feed.next(),
            None => Feed::End,
        };
        if let Some(fullness) = &mut self.fullness {
            fullness.end(&answer);
        }
        answer
    }
}

/// An antenna over files, or none yet, which opens no file, and whose calls fail.
#[derive(Drop)]
pub struct LateAntenna<'a> {
    /// The antenna, if there is one.
    pub antenna: Option<CountedAntenna<FileAntenna<Stamped<'a, HostRuntime>>>>,
    /// What notes that a CLTU was sent.
    pub bells: Option<Bells>,
    // How often a call has failed while there was none.
    missed: Faults,
}

impl<'a> LateAntenna<'a> {
    /// No antenna yet.
    pub fn none() -> LateAntenna<'a> {
        LateAntenna {
            antenna: None,
            bells: None,
            missed: Faults::new(),
        }
    }

    /// This antenna.
    pub fn over(antenna: FileAntenna<Stamped<'a, HostRuntime>>) -> LateAntenna<'a> {
        LateAntenna {
            antenna: Some(CountedAntenna {
                antenna,
                board: None,
            }),
            bells: None,
            missed: Faults::new(),
        }
    }

    /// Has this board count what is sent.
    pub fn count_on(&mut self, board: Option<Board>) {
        if let Some(antenna) = &mut self.antenna {
            antenna.board = board;
        }
    }
}

impl Antenna for LateAntenna<'_> {
    ghost use Rattle.std.specs.Prelude.{None, option_map, unwrap_or};

    ghost sent = { λ _. None };

    ghost faults = { λ late. unwrap_or (option_map (λ antenna. antenna.antenna.faults) late.antenna)
        late.missed };

    fn send(&mut self, octets: &[u8]) -> Result<(), Failed> {
        if let Some(bells) = &self.bells {
            bells.note_sent();
        }
        match &mut self.antenna {
            Some(antenna) => antenna.send(octets),
            None => self.missed.fail(),
        }
    }
}
