// Kinds of words that only the lines of a stream have.
ghost use Rattle.std.specs.Prelude.{◌≡◌};

use cds_time::{Cds, Rest};
use octet_core::Octets;
use std::alloc::{AllocError, Global};
use words::{
    Fixed, FixedText, Hex, Last, Long, Number, Short, Then, Unread, Word, Words, WriteWords,
};

/// An integer of a line.
#[derive(Clone, Copy, Debug, PartialEq, Eq)]
pub enum Integer {
    /// 0 or above.
    Above(u64),
    /// So far below 0.
    Below(u64),
}

impl Integer {
    /// Its value.
    pub fn value(self) -> i128 {
        match self {
            Integer::Above(number) => i128::from(number),
            Integer::Below(number) => -i128::from(number),
        }
    }
}

/// An antenna of a line.
#[derive(Debug, Drop)]
pub enum Antenna {
    /// `oid:HEX`: the content of an object identifier.
    Global(Octets),
    /// HEX of 1 to 16 octets.
    Local(Octets),
}

// No text, before a sign.
struct NoText;

impl FixedText for NoText {
    ghost use Rattle.std.specs.Prelude.{[]};

    ghost TEXT = { [] };

    fn text() -> &'static [u8] {
        b""
    }
}

type Minus = Then<Fixed<NoText>, Last<Long<1, 18_446_744_073_709_551_615>>>;

type Plus = Long<0, 18_446_744_073_709_551_615>;

// An integer, with a sign where it is below 0.
pub(crate) struct IntegerWord;

impl Word for IntegerWord {
    ghost use Rattle.explain_lines.specs.Kinds.{integer};
    ghost use Rattle.explain_lines.specs.declared.kinds.Integer.{Integer};

    type Value = Integer;

    ghost Seen = { Integer };

    ghost kind = { integer };

    ghost seen = { λ value. value };

    fn read(alloc: Global, word: &[u8]) -> Result<Integer, Unread> {
        match Minus::read(alloc, b'-', Some(word)) {
            Ok(((), number)) => Ok(Integer::Below(number)),
            Err(Unread::Bad) => Ok(Integer::Above(Plus::read(alloc, word)?)),
            Err(Unread::Memory) => Err(Unread::Memory),
        }
    }

    fn write(value: &Integer, into: &mut Vec<u8>) -> Result<(), AllocError> {
        match value {
            Integer::Below(number) => Last::<Long<1, 18_446_744_073_709_551_615>>::put(
                b'-', number, into,
            ),
            Integer::Above(number) => Plus::write(number, into),
        }
    }
}

// The text before a global antenna.
struct OidText;

impl FixedText for OidText {
    ghost use Rattle.std.specs.Prelude.{codes};

    ghost TEXT = { codes "oid" };

    fn text() -> &'static [u8] {
        b"oid"
    }
}

type Marked = Then<Fixed<OidText>, Last<Hex<1, 65_536>>>;

// An antenna in either form.
pub(crate) struct AntennaWord;

impl Word for AntennaWord {
    ghost use Rattle.explain_lines.specs.Kinds.{antenna};
    ghost use Rattle.explain_lines.specs.declared.kinds.Antenna.{Antenna};

    type Value = Antenna;

    ghost Seen = { Antenna };

    ghost kind = { antenna };

    ghost seen = { λ value. value };

    fn read(alloc: Global, word: &[u8]) -> Result<Antenna, Unread> {
        match Marked::read(alloc, b':', Some(word)) {
            Ok(((), octets)) => Ok(Antenna::Global(octets)),
            Err(Unread::Bad) => Ok(Antenna::Local(Hex::<1, 16>::read(alloc, word)?)),
            Err(Unread::Memory) => Err(Unread::Memory),
        }
    }

    fn write(value: &Antenna, into: &mut Vec<u8>) -> Result<(), AllocError> {
        match value {
            Antenna::Global(octets) => {
                Fixed::<OidText>::write(&(), into)?;
                Last::<Hex<1, 65_536>>::put(b':', octets, into)
            }
            Antenna::Local(octets) => Hex::<1, 16>::write(octets, into),
        }
    }
}

// The part of a time below the millisecond, in range or not.
struct RestWord;

type Micros = Short<0, 65_535>;

type Picos = Number<0, 4_294_967_295>;

type WithP = Then<Picos, Last<Fixed<NoText>>>;

impl Word for RestWord {
    ghost use Rattle.explain_lines.specs.Kinds.{rest};
    ghost use Rattle.cds_time.specs.declared.cds.Rest.{Rest};

    type Value = Rest;

    ghost Seen = { Rest };

    ghost kind = { rest };

    ghost seen = { λ part. part };

    fn read(alloc: Global, word: &[u8]) -> Result<Rest, Unread> {
        match WithP::read(alloc, b'p', Some(word)) {
            Ok((picos, ())) => Ok(Rest::Picos(picos)),
            Err(Unread::Bad) => Ok(Rest::Micros(Micros::read(alloc, word)?)),
            Err(Unread::Memory) => Err(Unread::Memory),
        }
    }

    fn write(value: &Rest, into: &mut Vec<u8>) -> Result<(), AllocError> {
        match value {
            Rest::Picos(picos) => {
                Picos::write(picos, into)?;
                Last::<Fixed<NoText>>::put(b'p', &(), into)
            }
            Rest::Micros(micros) => Micros::write(micros, into),
        }
    }
}

type OfDay = Then<Number<0, 4_294_967_295>, Last<RestWord>>;

type Day = Short<0, 65_535>;

// A time by its fields, in range or not.
pub(crate) struct FieldsWord;

impl Word for FieldsWord {
    ghost use Rattle.explain_lines.specs.Kinds.{fields};
    ghost use Rattle.cds_time.specs.declared.cds.Cds.{Cds};

    type Value = Cds;

    ghost Seen = { Cds };

    ghost kind = { fields };

    ghost seen = { λ at. at };

    fn read(alloc: Global, word: &[u8]) -> Result<Cds, Unread> {
        let (days, (millis, rest)) = Then::<Day, OfDay>::read(alloc, b'/', Some(word))?;
        Ok(Cds { days, millis, rest })
    }

    fn write(value: &Cds, into: &mut Vec<u8>) -> Result<(), AllocError> {
        Day::write(&value.days, into)?;
        OfDay::put(b'/', (&value.millis, &value.rest), into)
    }
}

const UNKNOWN: &[u8] = b"-1";

// How many frames are missing before one, or -1 where it isn't known.
pub(crate) struct ContinuityWord;

impl Word for ContinuityWord {
    ghost use Rattle.std.specs.Prelude.{ℕ, Option};
    ghost use Rattle.explain_lines.specs.Kinds.{continuity};

    type Value = Option<u32>;

    ghost Seen = { Option ℕ };

    ghost kind = { continuity };

    ghost seen = { λ missing. missing };

    fn read(alloc: Global, word: &[u8]) -> Result<Option<u32>, Unread> {
        if word == UNKNOWN {
            return Ok(None);
        }
        Ok(Some(Number::<0, 16_777_215>::read(alloc, word)?))
    }

    fn write(value: &Option<u32>, into: &mut Vec<u8>) -> Result<(), AllocError> {
        match value {
            None => into.extend_from_slice(UNKNOWN),
            Some(missing) => Number::<0, 16_777_215>::write(missing, into),
        }
    }
}
