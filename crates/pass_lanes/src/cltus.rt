// The CLTUs of a pass.

use crate::cltu::{Cltu, Fate};
use crate::label::Label;
use crate::lanes::Lanes;
use crate::note::Note;
use crate::place::Place;
use cds_time::Cds;
use lane_picture::{Look, Mark};
use std::alloc::{AllocError, Global};

// A CLTU with the columns of what became of it.
#[derive(Drop)]
struct Course {
    cltu: Cltu,
    from: u32,
    // Where it no longer waited.
    left: Option<u32>,
    // Where its radiation ended.
    ended: Option<u32>,
    fate: Fate,
}

// The CLTUs in their order, and what the clock read.
#[derive(Drop)]
pub struct Cltus {
    courses: Vec<Course>,
    // How many returns of TRANSFER-DATA came.
    returned: usize,
    // How many at the front wait no longer.
    over: usize,
    in_air: Option<usize>,
    clocks: Vec<(u32, u128)>,
}

// The marks of a CLTU: of its waiting, of its window and of its radiation.
#[derive(Drop)]
struct CourseMarks {
    waits: Option<Mark>,
    window: Option<Mark>,
    radiates: Option<Mark>,
}

// How far behind the first one that waits another one is looked for.
const LOOKED_AT: usize = 64;

impl Cltus {
    pub(crate) fn new(alloc: Global) -> Cltus {
        Cltus {
            courses: Vec::new(alloc),
            returned: 0,
            over: 0,
            in_air: None,
            clocks: Vec::new(alloc),
        }
    }

    pub(crate) fn clock(&mut self, column: u32, moment: u128) -> Result<(), AllocError> {
        self.clocks.push((column, moment))?;
        Ok(())
    }

    fn asked(&mut self, column: u32, cltu: Cltu) -> Result<(), AllocError> {
        self.courses.push(Course {
            cltu,
            from: column,
            left: None,
            ended: None,
            fate: Fate::Waiting,
        })?;
        Ok(())
    }

    // The next return of TRANSFER-DATA came.
    fn returned(&mut self, column: u32, is_refused: bool) {
        if is_refused {
            let place = self.returned;
            self.leave(place, column, Fate::Refused);
        }
        self.returned = self.returned.saturating_add(1);
    }

    // A CLTU waits no longer.
    fn leave(&mut self, place: usize, column: u32, fate: Fate) {
        if let Some(course) = self.courses.get_mut(place) {
            if course.fate == Fate::Waiting {
                course.left = Some(column);
                course.fate = fate;
            }
        }
    }

    fn is_waiting(&self, place: usize, id: u32) -> bool {
        match self.courses.get(place) {
            Some(course) => course.cltu.id == id && course.fate == Fate::Waiting,
            None => false,
        }
    }

    // The first one with an identification that waits.
    fn waiting(&self, id: u32) -> Option<usize> {
        for place in self.over..self.over.saturating_add(LOOKED_AT) {
            if self.is_waiting(place, id) {
                return Some(place);
            }
        }
        None
    }

    // A take turn told this of a CLTU.
    fn taken(&mut self, column: u32, id: u32, fate: Fate) {
        if let Some(place) = self.waiting(id) {
            self.leave(place, column, fate);
            self.over = place;
            if fate == Fate::InAir {
                self.in_air = Some(place);
            }
        }
    }

    // What is in the air is radiated.
    fn done(&mut self, column: u32) {
        if let Some(place) = self.in_air.take() {
            if let Some(course) = self.courses.get_mut(place) {
                course.ended = Some(column);
                course.fate = Fate::Radiated;
            }
        }
    }

    // All that wait are discarded.
    fn discard(&mut self, column: u32) {
        for place in self.over..self.courses.len() {
            self.leave(place, column, Fate::Discarded);
        }
        self.over = self.courses.len();
    }

    // The first column, from one on, in which the clock reads a moment that fits.
    fn first_column(&self, from: u32, moment: u128, is_above: bool) -> Option<u32> {
        for (column, read) in &self.clocks {
            if *read > moment || (*read == moment && !is_above) {
                return Some((*column).max(from));
            }
        }
        None
    }
}

// How many CLTUs stand below one another at most.
const ROWS: usize = 12;

impl Lanes {
    /// A user hands over a CLTU.
    pub fn put_cltu(&mut self, cltu: Cltu) -> Result<(), AllocError> {
        let column = self.column();
        self.cltus.asked(column, cltu)
    }

    /// The next return of TRANSFER-DATA came.
    pub fn cltu_returned(&mut self, is_refused: bool) {
        let column = self.column();
        self.cltus.returned(column, is_refused);
    }

    /// A take turn told this of a CLTU, which waits no longer.
    pub fn cltu_taken(&mut self, id: u32, fate: Fate) {
        let column = self.column();
        self.cltus.taken(column, id, fate);
    }

    /// What is in the air is radiated.
    pub fn cltu_done(&mut self) {
        let column = self.column();
        self.cltus.done(column);
    }

    /// All CLTUs that wait are discarded.
    pub fn discard_cltus(&mut self) {
        let column = self.column();
        self.cltus.discard(column);
    }

    // Puts all CLTUs into their lane: each in the first row that is free there.
    pub(crate) fn put_cltus(&mut self) -> Result<(), AllocError> {
        let mut ends = [0u32; ROWS];
        for place in 0..self.cltus.courses.len() {
            self.put_course(place, &mut ends)?;
        }
        Ok(())
    }

    fn put_course(&mut self, place: usize, ends: &mut [u32; ROWS]) -> Result<(), AllocError> {
        let CourseMarks {
            waits,
            window,
            radiates,
        } = self.marks_of(place, ends)?;
        self.put_if(waits)?;
        self.put_if(window)?;
        self.put_if(radiates)
    }

    fn put_if(&mut self, mark: Option<Mark>) -> Result<(), AllocError> {
        match mark {
            Some(mark) => self.put_mark(Place::Cltus, mark),
            None => Ok(()),
        }
    }

    fn marks_of(&self, place: usize, ends: &mut [u32; ROWS]) -> Result<CourseMarks, AllocError> {
        let Some(course) = self.cltus.courses.get(place) else {
            return Ok(CourseMarks {
                waits: None,
                window: None,
                radiates: None,
            });
        };
        let end = self.end_of(course);
        let row = free_row(ends, course.from, end.saturating_add(1));
        Ok(CourseMarks {
            waits: Some(self.waiting_mark(course, row)?),
            window: self.window_mark(course, row, end)?,
            radiates: self.air_mark(course, row, end)?,
        })
    }

    // The column behind the last one that a CLTU takes.
    fn end_of(&self, course: &Course) -> u32 {
        match (course.fate, course.ended, course.left) {
            (Fate::Waiting | Fate::InAir, _, _) => self.columns,
            (_, Some(ended), _) => ended.saturating_add(1),
            (_, None, Some(left)) => left.saturating_add(1),
            (_, None, None) => self.columns,
        }
    }

    fn waiting_mark(&self, course: &Course, row: u32) -> Result<Mark, AllocError> {
        let to = match (course.fate, course.left) {
            (Fate::InAir | Fate::Radiated, Some(left)) => left.max(course.from.saturating_add(1)),
            (_, Some(left)) => left.saturating_add(1),
            (_, None) => self.columns,
        };
        let mut text = Label::of(self.alloc, "")?;
        text.number(course.cltu.id)?;
        text.word(" ")?;
        text.word(course.fate.word())?;
        let look = course.fate.look();
        let note = Note::new(look, text.as_slice(), course.cltu.tip.as_slice());
        note.mark(self.alloc, course.from, to, row)
    }

    // The columns in which the clock reads a time of its window.
    fn window_mark(&self, course: &Course, row: u32, end: u32) -> Result<Option<Mark>, AllocError> {
        if course.cltu.earliest.is_none() && course.cltu.latest.is_none() {
            return Ok(None);
        }
        let from = self.column_of(&course.cltu.earliest, course.from, false);
        let from = from.unwrap_or(end).max(course.from);
        let to = self.column_of(&course.cltu.latest, course.from, true);
        let to = to.unwrap_or(end).min(end);
        if from >= to {
            return Ok(None);
        }
        let note = Note::new(Look::Window, b"window", course.cltu.tip.as_slice());
        Ok(Some(note.mark(self.alloc, from, to, row.saturating_add(1))?))
    }

    // The first column whose clock reads a time, or one above it: the first at all of no earliest
    // time, and none of no latest one.
    fn column_of(&self, at: &Option<Cds>, from: u32, is_above: bool) -> Option<u32> {
        match at {
            Some(at) => self.cltus.first_column(from, at.moment()?, is_above),
            None if is_above => None,
            None => Some(from),
        }
    }

    // The columns in which it is in the air.
    fn air_mark(&self, course: &Course, row: u32, end: u32) -> Result<Option<Mark>, AllocError> {
        let from = match (course.fate, course.left) {
            (Fate::InAir | Fate::Radiated, Some(left)) => left,
            _ => return Ok(None),
        };
        let from = from.max(course.from.saturating_add(1));
        let note = Note::new(Look::Sent, b"on air", course.cltu.tip.as_slice());
        let to = end.max(from.saturating_add(1));
        Ok(Some(note.mark(self.alloc, from, to, row)?))
    }
}

// The first row that is free from a column on, which is taken up to another one. A CLTU takes two
// rows; where none is free it stands in the last ones.
fn free_row(ends: &mut [u32; ROWS], from: u32, to: u32) -> u32 {
    let free = first_free(ends, from).min(ROWS - 1);
    ends[free] = to;
    free as u32 * 2
}

// The first row that ends before a column.
fn first_free(ends: &[u32; ROWS], from: u32) -> usize {
    for (place, end) in ends.iter().enumerate() {
        if *end <= from {
            return place;
        }
    }
    ROWS
}
