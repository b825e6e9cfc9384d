// Words that are times.
ghost use Rattle.std.specs.Prelude.{◌≡◌};

use crate::decimal::number;
use crate::last::Last;
use crate::number::{Number, Short};
use crate::split::before_last;
use crate::then::Then;
use crate::unread::Unread;
use crate::word::Word;
use crate::words_row::{Words, WriteWords};
use cds_time::{Cds, Rest};
use itoa::Buffer;
use std::alloc::{AllocError, Global};

const LAST_MICRO: u64 = 999;

const LAST_PICO: u64 = 999_999_999;

/// The part of a time below the millisecond: microseconds, or picoseconds and the letter p.
pub struct Fraction;

impl Word for Fraction {
    ghost use Rattle.words.specs.Times.{rest};
    ghost use Rattle.cds_time.specs.declared.cds.Rest.{Rest};

    type Value = Rest;

    ghost Seen = { Rest };

    ghost kind = { rest };

    ghost seen = { λ part. part };

    fn read(_: Global, word: &[u8]) -> Result<Rest, Unread> {
        if let Some(micros) = number(word, 0, LAST_MICRO) {
            return Ok(Rest::Micros(micros as u16));
        }
        let front = before_last(b'p', word).ok_or(Unread::Bad)?;
        let picos = number(front, 0, LAST_PICO).ok_or(Unread::Bad)?;
        Ok(Rest::Picos(picos as u32))
    }

    fn write(value: &Rest, into: &mut Vec<u8>) -> Result<(), AllocError> {
        let mut buffer = Buffer::new();
        match value {
            Rest::Micros(micros) => into.extend_from_slice(buffer.format(*micros).as_bytes()),
            Rest::Picos(picos) => {
                into.extend_from_slice(buffer.format(*picos).as_bytes())?;
                into.push(b'p')?;
                Ok(())
            }
        }
    }
}

const LAST_MILLI: u32 = 86_399_999;

type OfDay = Then<Number<0, LAST_MILLI>, Last<Fraction>>;

type Day = Short<0, 65_535>;

type Fields = Then<Day, OfDay>;

/// A time: days, milliseconds of the day and a fraction, as `D/M/U` or `D/M/Pp`.
pub struct Time;

impl Word for Time {
    ghost use Rattle.words.specs.Times.{time};
    ghost use Rattle.cds_time.specs.declared.cds.Cds.{Cds};

    type Value = Cds;

    ghost Seen = { Cds };

    ghost kind = { time };

    ghost seen = { λ at. at };

    fn read(alloc: Global, word: &[u8]) -> Result<Cds, Unread> {
        let (days, (millis, rest)) = Fields::read(alloc, b'/', Some(word))?;
        Ok(Cds { days, millis, rest })
    }

    fn write(value: &Cds, into: &mut Vec<u8>) -> Result<(), AllocError> {
        Day::write(&value.days, into)?;
        OfDay::put(b'/', (&value.millis, &value.rest), into)
    }
}

const NONE: &[u8] = b"none";

/// A time, or `none`.
pub struct When;

impl Word for When {
    ghost use Rattle.words.specs.Times.{when};
    ghost use Rattle.std.specs.Prelude.{Option};
    ghost use Rattle.cds_time.specs.declared.cds.Cds.{Cds};

    type Value = Option<Cds>;

    ghost Seen = { Option Cds };

    ghost kind = { when };

    ghost seen = { λ at. at };

    fn read(alloc: Global, word: &[u8]) -> Result<Option<Cds>, Unread> {
        if word == NONE {
            return Ok(None);
        }
        Ok(Some(Time::read(alloc, word)?))
    }

    fn write(value: &Option<Cds>, into: &mut Vec<u8>) -> Result<(), AllocError> {
        match value {
            None => into.extend_from_slice(NONE),
            Some(at) => Time::write(at, into),
        }
    }
}
