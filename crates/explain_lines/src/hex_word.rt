// Any number of octets in hexadecimal digits, as a word.

use hex_text::DecodeFault;
use octet_core::Octets;
use std::alloc::{AllocError, Global};
use words::{Unread, Word};

/// At least one octet, two hexadecimal digits each, in either case. They are written in lower case.
pub struct HexWord;

impl Word for HexWord {
    ghost use Rattle.std.specs.Prelude.{ℕ, List};
    ghost use Rattle.words.specs.HexOctets.{hex};

    type Value = Octets;

    ghost Seen = { List ℕ };

    ghost kind = { hex 1 18446744073709551615 };

    ghost seen = { λ octets. octets };

    fn read(alloc: Global, word: &[u8]) -> Result<Octets, Unread> {
        match hex_text::decode(alloc, word) {
            Ok(octets) if octets.len() < 1 => Err(Unread::Bad),
            Ok(octets) => Ok(Octets::from_vec(alloc, octets)?),
            Err(DecodeFault::Memory) => Err(Unread::Memory),
            Err(DecodeFault::NoDigits) => Err(Unread::Bad),
        }
    }

    fn write(value: &Octets, into: &mut Vec<u8>) -> Result<(), AllocError> {
        hex_text::append(value.as_slice(), into)
    }
}
