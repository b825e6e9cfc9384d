// What lines say that aren't entries.

use crate::line::Line;
use crate::pass::Reading;
use drill_text::{AskLine, ScriptLine};
use explain_words::Text;
use lane_picture::Look;
use pass_lanes::{Cltu, Note, Place};
use sle_common::ReportKind;
use sle_numbers::RequestedFrameQuality;
use std::alloc::AllocError;

// In which row of a connection's lane stands what its user asks, and what is done to it.
const ASKED: u32 = 1;

// The most octets that a piece has.
const MOST_OCTETS: usize = 65_536;

impl Reading<'_> {
    // Puts what a line says.
    pub(crate) fn put_says(
        &mut self,
        line: &Line<'_>,
        says: &ScriptLine,
        tip: &[u8],
    ) -> Result<(), AllocError> {
        match says {
            ScriptLine::Offer(entry) => self.put_offered(entry, line.said, tip),
            ScriptLine::Desk { quality, .. } => {
                self.put_desk(line.said.starts_with(b"refused"), tip)?;
                self.put_asked(0, start_text(*quality), tip)
            }
            ScriptLine::Clock(at) => self.lanes.put_clock(at, tip),
            ScriptLine::Piece { c, octets } => {
                self.services.hear(*c, octets.as_slice());
                self.put_counted(*c, "octets: ", octets.len().min(MOST_OCTETS) as u32, tip)
            }
            ScriptLine::Ask { c, ask } => self.put_ask(*c, ask, tip),
            ScriptLine::Crash { .. } | ScriptLine::Fault { .. } => self.put_order(says, tip),
            ScriptLine::Take { .. } | ScriptLine::Done | ScriptLine::Uplink { .. } => {
                self.put_antenna(says, tip)
            }
            _ => self.put_steered_line(says, tip),
        }
    }

    // Puts what is done to a connection.
    fn put_steered_line(&mut self, says: &ScriptLine, tip: &[u8]) -> Result<(), AllocError> {
        match says {
            ScriptLine::Open { c } => self.turn_state(*c, "open", tip),
            ScriptLine::Shut { c } => self.put_steered(*c, "shut", tip),
            ScriptLine::Break { c } => self.put_steered(*c, "break", tip),
            ScriptLine::Round { c, n } => self.put_counted(*c, "rounds: ", *n, tip),
            ScriptLine::Stall { c, n } => self.put_counted(*c, "stalls: ", *n, tip),
            _ => Ok(()),
        }
    }

    // Puts the desk's state: it is bound, and active while a START is answered.
    fn put_desk(&mut self, is_refused: bool, tip: &[u8]) -> Result<(), AllocError> {
        let state = if is_refused {
            "RAF bound"
        } else {
            "RAF active"
        };
        let note = Note::new(Look::State, state.as_bytes(), tip);
        self.lanes.put(Place::Connection(0), 0, note)
    }

    fn put_asked(&mut self, c: u32, text: &str, tip: &[u8]) -> Result<(), AllocError> {
        let note = Note::new(Look::Asked, text.as_bytes(), tip);
        self.lanes.put(Place::Connection(c), ASKED, note)
    }

    fn put_steered(&mut self, c: u32, text: &str, tip: &[u8]) -> Result<(), AllocError> {
        let note = Note::new(Look::Steered, text.as_bytes(), tip);
        self.lanes.put(Place::Connection(c), ASKED, note)
    }

    fn put_counted(&mut self, c: u32, word: &str, n: u32, tip: &[u8]) -> Result<(), AllocError> {
        let mut text = Text::new(self.alloc);
        text.put(word);
        text.put_number(i128::from(n));
        let note = Note::new(Look::Steered, text.octets()?, tip);
        self.lanes.put(Place::Connection(c), ASKED, note)
    }

    // Puts a message that a user sends.
    fn put_ask(&mut self, c: u32, ask: &AskLine, tip: &[u8]) -> Result<(), AllocError> {
        match ask {
            AskLine::Bind { service, .. } => self.services.bind(c, *service),
            AskLine::Cltu { .. } => self.put_cltu(ask, tip)?,
            _ => {}
        }
        let mut text = Text::new(self.alloc);
        put_ask_text(ask, &mut text);
        let note = Note::new(Look::Asked, text.octets()?, tip);
        self.lanes.put(Place::Connection(c), ASKED, note)
    }

    fn put_cltu(&mut self, ask: &AskLine, tip: &[u8]) -> Result<(), AllocError> {
        if let AskLine::Cltu {
            id,
            earliest,
            latest,
            ..
        } = ask
        {
            return self.lanes.put_cltu(Cltu {
                id: *id,
                earliest: *earliest,
                latest: *latest,
                tip: Vec::from_slice(self.alloc, tip)?,
            });
        }
        Ok(())
    }
}

// A START at the desk.
fn start_text(quality: RequestedFrameQuality) -> &'static str {
    match quality {
        RequestedFrameQuality::GoodFramesOnly => "START good",
        RequestedFrameQuality::ErredFrameOnly => "START erred",
        RequestedFrameQuality::AllFrames => "START all",
    }
}

// What stands on the mark of a message that a user sends.
fn put_ask_text(ask: &AskLine, text: &mut Text) {
    match ask {
        AskLine::Context { .. } => text.put("context"),
        AskLine::Bind { .. } => text.put("BIND"),
        AskLine::Unbind => text.put("UNBIND"),
        AskLine::StartRaf { quality, .. } => text.put(start_text(*quality)),
        AskLine::StartRcf { .. } => text.put("START"),
        AskLine::StartCltu { first } => put_with("START ", i128::from(*first), text),
        AskLine::Stop => text.put("STOP"),
        AskLine::Report(ReportKind::Now) => text.put("report now"),
        AskLine::Report(ReportKind::Stop) => text.put("report stop"),
        AskLine::Report(ReportKind::Cycle(seconds)) => {
            put_with("report ", i128::from(*seconds), text)
        }
        AskLine::Get { name } => put_with("GET ", i128::from(*name), text),
        AskLine::Cltu { id, .. } => put_with("CLTU ", i128::from(*id), text),
    }
}

fn put_with(word: &str, number: i128, text: &mut Text) {
    text.put(word);
    text.put_number(number);
}
