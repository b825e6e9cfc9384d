// A line that ran.
ghost use Rattle.std.specs.Prelude.{◌≡◌, IfOk};

use crate::marked::without_end;
use crate::pass::Reading;
use crate::row::row_of;
use drill_text::ScriptLine;
use explain_words::Text;
use lane_picture::Look;
use line_meaning::{Ending, put_ending, put_entry};
use line_table::{Ran, Row};
use pass_lanes::{Note, Place};
use std::alloc::AllocError;

// A line of the script that ran, with what it led to.
#[derive(Clone, Copy, Debug)]
pub struct Line<'a> {
    pub(crate) number: u32,
    pub(crate) line: &'a [u8],
    pub(crate) said: &'a [u8],
}

// How many octets of a line a pointer is told.
const TOLD: usize = 200;

impl Reading<'_> {
    // The row of a line that ran, which is put into the lanes where it says something.
    pub(crate) fn read_run(
        &mut self,
        line: &Line<'_>,
        says: &Option<ScriptLine>,
    ) -> Result<Row, AllocError>
        ensures { IfOk result (λ row. row.line.items ≡ line.now.line.now) }
    {
        match says {
            Some(ScriptLine::Skip) => {
                row_of(
                    self.alloc,
                    line.number,
                    line.line,
                    line.said,
                    b"",
                    Ran::Done,
                )
            }
            Some(says) if !self.is_bad(line)? => self.read_done(line, says),
            _ => self.read_bad(line),
        }
    }

    // Whether it ended the run.
    fn is_bad(&self, line: &Line<'_>) -> Result<bool, AllocError> {
        match Ending::of(self.alloc, without_end(line.said))? {
            Some(Ending::BadLine { .. }) => Ok(true),
            _ => Ok(false),
        }
    }

    fn read_done(&mut self, line: &Line<'_>, says: &ScriptLine) -> Result<Row, AllocError>
        ensures { IfOk result (λ row. row.line.items ≡ line.now.line.now) }
    {
        let mut words = Text::new(self.alloc);
        if let ScriptLine::Offer(entry) = says {
            put_entry(entry, &mut words);
        }
        let mut tip = Text::new(self.alloc);
        put_tip(line, words.octets()?, &mut tip);
        self.begin_column(line.number, tip.octets()?)?;
        self.put_says(line, says, tip.octets()?)?;
        self.put_said(line.said, &mut words)?;
        let ran = ran_of(line.said);
        row_of(
            self.alloc,
            line.number,
            line.line,
            line.said,
            words.octets()?,
            ran,
        )
    }

    fn begin_column(&mut self, number: u32, tip: &[u8]) -> Result<(), AllocError> {
        self.said = 0;
        self.lanes.next_column();
        let mut text = Text::new(self.alloc);
        text.put_number(i128::from(number));
        let note = Note::new(Look::Number, text.octets()?, tip);
        self.lanes.put(Place::Numbers, 0, note)
    }

    // The row of a line at which the run ended. (Its number in the transcript counts marks, too.)
    fn read_bad(&mut self, line: &Line<'_>) -> Result<Row, AllocError>
        ensures { IfOk result (λ row. row.line.items ≡ line.now.line.now) }
    {
        let mut said = Text::new(self.alloc);
        said.put("bad line ");
        said.put_number(i128::from(line.number));
        said.end();
        let mut words = Text::new(self.alloc);
        put_ending(&Ending::BadLine { line: line.number }, &mut words);
        let mut tip = Text::new(self.alloc);
        put_tip(line, words.octets()?, &mut tip);
        self.begin_column(line.number, tip.octets()?)?;
        let note = Note::new(Look::Refused, b"bad line", tip.octets()?);
        self.lanes.put(Place::Failures, 0, note)?;
        let (said, words) = (said.octets()?, words.octets()?);
        row_of(self.alloc, line.number, line.line, said, words, Ran::Bad)
    }
}

// What a pointer over a line's marks is told: the line, and words on it.
fn put_tip(line: &Line<'_>, words: &[u8], text: &mut Text) {
    text.put("line ");
    text.put_number(i128::from(line.number));
    text.put(": ");
    text.put_octets(&line.line[..line.line.len().min(TOLD)]);
    if line.line.len() > TOLD {
        text.put("..");
    }
    text.end();
    text.put_octets(words);
}

// What became of a line that was done.
fn ran_of(said: &[u8]) -> Ran {
    if said.starts_with(b"full ") {
        Ran::Full
    } else {
        Ran::Done
    }
}
