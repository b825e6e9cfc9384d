// Words that are numbers.
ghost use Rattle.std.specs.Prelude.{◌≡◌};

use crate::decimal::number;
use crate::unread::Unread;
use crate::word::Word;
use itoa::Buffer;
use std::alloc::{AllocError, Global};

/// A number of a range, of 32 bits: decimal digits without sign and leading zeros.
pub struct Number<const LEAST: u32, const MOST: u32>;

impl<const LEAST: u32, const MOST: u32> Word for Number<LEAST, MOST> {
    ghost use Rattle.std.specs.Prelude.{ℕ};
    ghost use Rattle.words.specs.Number.{number};

    type Value = u32;

    ghost Seen = { ℕ };

    ghost kind = { number LEAST MOST };

    ghost seen = { λ value. value };

    fn read(_: Global, word: &[u8]) -> Result<u32, Unread> {
        let value = number(word, u64::from(LEAST), u64::from(MOST)).ok_or(Unread::Bad)?;
        Ok(value as u32)
    }

    fn write(value: &u32, into: &mut Vec<u8>) -> Result<(), AllocError> {
        let mut buffer = Buffer::new();
        into.extend_from_slice(buffer.format(*value).as_bytes())
    }
}

/// A number of a range, of 64 bits.
pub struct Long<const LEAST: u64, const MOST: u64>;

impl<const LEAST: u64, const MOST: u64> Word for Long<LEAST, MOST> {
    ghost use Rattle.std.specs.Prelude.{ℕ};
    ghost use Rattle.words.specs.Number.{number};

    type Value = u64;

    ghost Seen = { ℕ };

    ghost kind = { number LEAST MOST };

    ghost seen = { λ value. value };

    fn read(_: Global, word: &[u8]) -> Result<u64, Unread> {
        number(word, LEAST, MOST).ok_or(Unread::Bad)
    }

    fn write(value: &u64, into: &mut Vec<u8>) -> Result<(), AllocError> {
        let mut buffer = Buffer::new();
        into.extend_from_slice(buffer.format(*value).as_bytes())
    }
}

/// A number of a range, of 16 bits.
pub struct Short<const LEAST: u16, const MOST: u16>;

impl<const LEAST: u16, const MOST: u16> Word for Short<LEAST, MOST> {
    ghost use Rattle.std.specs.Prelude.{ℕ};
    ghost use Rattle.words.specs.Number.{number};

    type Value = u16;

    ghost Seen = { ℕ };

    ghost kind = { number LEAST MOST };

    ghost seen = { λ value. value };

    fn read(_: Global, word: &[u8]) -> Result<u16, Unread> {
        let value = number(word, u64::from(LEAST), u64::from(MOST)).ok_or(Unread::Bad)?;
        Ok(value as u16)
    }

    fn write(value: &u16, into: &mut Vec<u8>) -> Result<(), AllocError> {
        let mut buffer = Buffer::new();
        into.extend_from_slice(buffer.format(*value).as_bytes())
    }
}

/// A number of a range, of 8 bits.
pub struct Octet<const LEAST: u8, const MOST: u8>;

impl<const LEAST: u8, const MOST: u8> Word for Octet<LEAST, MOST> {
    ghost use Rattle.std.specs.Prelude.{ℕ};
    ghost use Rattle.words.specs.Number.{number};

    type Value = u8;

    ghost Seen = { ℕ };

    ghost kind = { number LEAST MOST };

    ghost seen = { λ value. value };

    fn read(_: Global, word: &[u8]) -> Result<u8, Unread> {
        let value = number(word, u64::from(LEAST), u64::from(MOST)).ok_or(Unread::Bad)?;
        Ok(value as u8)
    }

    fn write(value: &u8, into: &mut Vec<u8>) -> Result<(), AllocError> {
        let mut buffer = Buffer::new();
        into.extend_from_slice(buffer.format(*value).as_bytes())
    }
}
