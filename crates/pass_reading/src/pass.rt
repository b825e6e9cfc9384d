// A script with what its lines led to.
ghost use Rattle.std.specs.Prelude.{◌≡◌, IfOk};
ghost use Rattle.words.specs.Parts.{parts};
ghost use Rattle.pass_reading.specs.Lines.{lines_of, lines_in};

use crate::line::Line;
use crate::marked::{Marked, without_end};
use crate::row::row_of;
use crate::service::Services;
use drill_text::{LineFault, ScriptLine, parse_line};
use explain_words::Text;
use line_meaning::{Ending, put_ending};
use line_table::{Ran, Row};
use pass_lanes::Lanes;
use std::alloc::{AllocError, Global};
use words::split_part;

/// A pass, as it is drawn.
#[derive(Drop)]
pub struct Pass {
    /// Its lanes.
    pub lanes: Lanes,
    /// A row for each line of the script.
    pub rows: Vec<Row>,
}

// A pass that is being read.
#[derive(Drop)]
pub struct Reading<'a> {
    pub(crate) alloc: Global,
    pub(crate) lanes: Lanes,
    // What is left of the transcript, and what stood before the first mark: why the head was refused.
    marked: Marked<'a>,
    refusal: &'a [u8],
    // How many lines were read, and whether the next one is in the head.
    number: u32,
    is_head: bool,
    pub(crate) services: Services,
    // How many entries the archive has.
    pub(crate) entries: u64,
    // Whether a loss of frame synchronisation was the last thing told of the locks.
    pub(crate) is_lost: bool,
    // How many marks of what a line led to stand in this column.
    pub(crate) said: u32,
}

// The line that begins a head, and the one that ends it.
const SITE: &[u8] = b"site";

const END: &[u8] = b"end";

/// Reads a script, and its transcript with a mark in front of what each line led to.
pub fn read_pass(alloc: Global, script: &[u8], transcript: &[u8]) -> Result<Pass, AllocError>
    ensures { IfOk result (λ pass. lines_in pass.rows.items ≡ lines_of script.now) }
{
    let mut reading = Reading::new(alloc, transcript)?;
    let rows = reading.read_script(script)?;
    let mut lanes = reading.lanes;
    lanes.finish()?;
    Ok(Pass { lanes, rows })
}

impl<'a> Reading<'a> {
    fn new(alloc: Global, transcript: &'a [u8]) -> Result<Reading<'a>, AllocError> {
        let mut marked = Marked::new(transcript);
        let refusal = without_end(marked.take_said());
        Ok(Reading {
            alloc,
            lanes: Lanes::new(alloc)?,
            marked,
            refusal,
            number: 0,
            is_head: false,
            services: Services::new(),
            entries: 0,
            is_lost: false,
            said: 0,
        })
    }

    // The rows of a script's lines.
    fn read_script(&mut self, script: &[u8]) -> Result<Vec<Row>, AllocError>
        ensures { IfOk result (λ rows. lines_in rows.items ≡ lines_of script.now) }
    {
        if script.is_empty() {
            return Ok(Vec::new(self.alloc));
        }
        self.read_lines(without_end(script))
    }

    // The rows of lines, the last one's end left away.
    #[tactic(auto, using(crate::proofs::Lines::one_more, crate::proofs::Lines::all_there))]
    fn read_lines(&mut self, lines: &[u8]) -> Result<Vec<Row>, AllocError>
        ensures { IfOk result (λ rows. lines_in rows.items ≡ parts 10 lines.now) }
    {
        let mut rows = Vec::new(self.alloc);
        let mut left = Some(lines);
        while let Some(text) = left {
            let (line, behind) = split_part(b'\n', text);
            let row = self.read_line(line)?;
            rows.push(row)?;
            left = behind;
        }
        Ok(rows)
    }

    // The row of the next line, which is put into the lanes where it ran and says something.
    fn read_line(&mut self, line: &[u8]) -> Result<Row, AllocError>
        ensures { IfOk result (λ row. row.line.items ≡ line.now) }
    {
        let is_head = self.is_head || (self.number == 0 && line == SITE);
        self.number = self.number.saturating_add(1);
        self.is_head = is_head && line != END;
        if is_head {
            self.read_head(line)
        } else {
            self.read_behind(line)
        }
    }

    // A line of the head, which may be the refused one.
    fn read_head(&self, line: &[u8]) -> Result<Row, AllocError>
        ensures { IfOk result (λ row. row.line.items ≡ line.now) }
    {
        match Ending::of(self.alloc, self.refusal)? {
            Some(ending) if is_at(&ending, self.number) => {
                let mut text = Text::new(self.alloc);
                put_ending(&ending, &mut text);
                let words = text.octets()?;
                row_of(self.alloc, self.number, line, self.refusal, words, Ran::Bad)
            }
            _ => row_of(self.alloc, self.number, line, b"", b"", Ran::Head),
        }
    }

    // A line behind the head: it ran where its mark is there.
    fn read_behind(&mut self, line: &[u8]) -> Result<Row, AllocError>
        ensures { IfOk result (λ row. row.line.items ≡ line.now) }
    {
        if !self.marked.take_mark() {
            return row_of(self.alloc, self.number, line, b"", b"", Ran::NotRun);
        }
        let says = match parse_line(self.alloc, line) {
            Ok(says) => Some(says),
            Err(LineFault::Bad) => None,
            Err(LineFault::Memory) => return Err(AllocError),
        };
        let said = if is_refused(&says) {
            self.marked.take_line()
        } else {
            self.marked.take_said()
        };
        let number = self.number;
        self.read_run(&Line { number, line, said }, &says)
    }
}

// Whether the desk refuses what a line says.
fn is_refused(says: &Option<ScriptLine>) -> bool {
    match says {
        Some(ScriptLine::Desk { start, stop, .. }) => match (start.moment(), stop.moment()) {
            (Some(start), Some(stop)) => stop < start,
            _ => false,
        },
        _ => false,
    }
}

// Whether a refusal of the head is told at this line: a head that has no end is refused behind its
// last one.
fn is_at(ending: &Ending, number: u32) -> bool {
    match ending {
        Ending::BadSite { line, .. } => *line == number,
        Ending::BadLine { line } => line.saturating_sub(1) == number,
        _ => false,
    }
}
