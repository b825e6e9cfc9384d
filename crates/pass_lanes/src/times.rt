// The line of time.

use crate::label::Label;
use crate::lanes::Lanes;
use crate::note::Note;
use crate::place::Place;
use cds_time::{Cds, Rest};
use lane_picture::Look;
use std::alloc::{AllocError, Global};

// In which row times stand.
const TIMES: u32 = 1;

impl Lanes {
    /// Puts what the clock reads from now on.
    pub fn put_clock(&mut self, at: &Cds, tip: &[u8]) -> Result<(), AllocError> {
        if let Some(moment) = at.moment() {
            let column = self.column();
            self.cltus.clock(column, moment)?;
        }
        self.put_time(Look::Clock, at, tip)
    }

    /// Puts the time of an entry, or the clock's.
    pub fn put_time(&mut self, look: Look, at: &Cds, tip: &[u8]) -> Result<(), AllocError> {
        self.put_day(at.days, tip)?;
        let text = time_of_day(self.alloc, at)?;
        self.put(Place::Times, TIMES, Note::new(look, text.as_slice(), tip))
    }

    // Puts a day, where it is another one than before.
    fn put_day(&mut self, day: u16, tip: &[u8]) -> Result<(), AllocError> {
        if let Some(told) = self.day
            && told == day
        {
            return Ok(());
        }
        self.day = Some(day);
        let mut text = Label::of(self.alloc, "day ")?;
        text.number(u32::from(day))?;
        self.turn(
            Place::Times,
            Some(Note::new(Look::Day, text.as_slice(), tip)),
        )
    }
}

// The time of the day, down to the milliseconds, or to the microseconds where there are some.
fn time_of_day(alloc: Global, at: &Cds) -> Result<Label, AllocError> {
    let seconds = at.millis / 1_000;
    let mut text = Label::of(alloc, "")?;
    text.padded(seconds / 3_600, 10)?;
    text.word(":")?;
    text.padded(seconds / 60 % 60, 10)?;
    text.word(":")?;
    text.padded(seconds % 60, 10)?;
    text.word(".")?;
    text.padded(at.millis % 1_000, 100)?;
    let micros = micros_of(at);
    if micros > 0 {
        text.padded(micros, 100)?;
    }
    Ok(text)
}

fn micros_of(at: &Cds) -> u32 {
    match at.rest {
        Rest::Micros(micros) => u32::from(micros),
        Rest::Picos(picos) => picos / 1_000_000,
    }
}
