// Reports with their time.

use cds_time::Cds;
use jiff_core::civil::Date;
use std::alloc::{AllocError, Global};
use std::io::{Eprint, ErrorKind, Write};
use std::rt::Clock;
use std::{io, str};

// From -9999-01-01, where `jiff_core` begins to count, to 1958-01-01.
const DAYS_TO_1958: u32 = 4_367_204;

/// Writes texts on standard error, each behind the machine's time (ISO 8601, in UTC and milliseconds)
/// and a blank.
#[derive(Drop)]
pub struct Stamped<'a, R: Eprint + Clock> {
    rt: &'a R,
    alloc: Global,
}

impl<'a, R: Eprint + Clock> Stamped<'a, R> {
    /// Where texts are written, and whose time it is.
    pub fn new(rt: &'a R, alloc: Global) -> Stamped<'a, R> {
        Stamped { rt, alloc }
    }
}

impl<R: Eprint + Clock> Write for Stamped<'_, R> {
    fn write(&mut self, octets: &[u8]) -> io::Result<usize> {
        let Ok(text) = str::from_utf8(octets) else {
            return Err(ErrorKind::InvalidInput.into());
        };
        let now = self.rt.since_1970().ok().and_then(Cds::of_unix_time);
        let line = put_behind(self.alloc, now.unwrap_or(Cds::EPOCH), text)?;
        self.rt.eprint(line)?;
        Ok(octets.len())
    }

    fn flush(&mut self) -> io::Result<()> {
        Ok(())
    }
}

// A text behind a time.
fn put_behind(alloc: Global, at: Cds, text: &str) -> Result<String, AllocError> {
    let date = Date::from_days_since_min(DAYS_TO_1958 + u32::from(at.days));
    let (year, month, day) = (date.year, date.month, date.day);
    let seconds = at.millis / 1_000;
    let (hour, minute, second) = (seconds / 3_600, seconds / 60 % 60, seconds % 60);
    let milli = at.millis % 1_000;
    format!(in alloc;
        "{year:04}-{month:02}-{day:02}T{hour:02}:{minute:02}:{second:02}.{milli:03}Z {text}"
    )
}
