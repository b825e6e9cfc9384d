// Words that are octets in hexadecimal digits.
ghost use Rattle.std.specs.Prelude.{◌≡◌, ◌*◌, ◌<◌, IsErrOf, length};
ghost use Rattle.words.specs.HexOctets.{hex_read};
ghost use Rattle.words.specs.Reading.{Gives};

use crate::unread::Unread;
use crate::word::Word;
use crate::words_row::WriteWords;
use hex_text::DecodeFault;
use octet_core::Octets;
use std::alloc::{AllocError, Global};

/// So many octets, two hexadecimal digits each, in either case. They are written in lower case.
pub struct Hex<const LEAST: u32, const MOST: u32>;

impl<const LEAST: u32, const MOST: u32> Word for Hex<LEAST, MOST> {
    ghost use Rattle.std.specs.Prelude.{ℕ, List};
    ghost use Rattle.words.specs.HexOctets.{hex};

    type Value = Octets;

    ghost Seen = { List ℕ };

    ghost kind = { hex LEAST MOST };

    ghost seen = { λ octets. octets };

    /// The octets of a word. One of more digits than the longest value has is refused by its
    /// length, so not for want of memory: nothing is decoded for it.
    #[tactic(auto, using(crate::specs::HexOctets::too_long))]
    fn read(alloc: Global, word: &[u8]) -> Result<Octets, Unread>
        ensures exact { Gives (λ octets. octets) result (hex_read LEAST MOST word.now) }
        ensures too_long { 2 * MOST < length word.now → IsErrOf result Unread.Bad }
    {
        if word.len() > 2 * MOST as usize {
            return Err(Unread::Bad);
        }
        match hex_text::decode(alloc, word) {
            Ok(octets) if octets.len() < LEAST as usize || octets.len() > MOST as usize => Err(
                Unread::Bad,
            ),
            Ok(octets) => Ok(Octets::from_vec(alloc, octets)?),
            Err(DecodeFault::Memory) => Err(Unread::Memory),
            Err(DecodeFault::NoDigits) => Err(Unread::Bad),
        }
    }

    fn write(value: &Octets, into: &mut Vec<u8>) -> Result<(), AllocError> {
        hex_text::append(value.as_slice(), into)
    }
}

/// The last word of a row, of octets that are lent, as many as there are.
pub struct LentOctets;

impl<'a> WriteWords<'a> for LentOctets {
    ghost use Rattle.std.specs.Prelude.{ℕ, List};
    ghost use Rattle.words.specs.HexOctets.{all_octets};
    ghost use Rattle.words.specs.Last.{last};

    type Lent = &'a [u8];

    ghost Seen = { List ℕ };

    ghost kinds = { last all_octets };

    ghost lent = { λ octets. octets.now };

    fn put(separator: u8, octets: &'a [u8], into: &mut Vec<u8>) -> Result<(), AllocError> {
        into.push(separator)?;
        hex_text::append(octets, into)
    }
}
