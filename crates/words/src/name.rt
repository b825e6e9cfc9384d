// Words that are names.
ghost use Rattle.std.specs.Prelude.{◌≡◌, false, IsErrOf};
ghost use Rattle.std.specs.List.{list_all};
ghost use Rattle.words.specs.Names.{is_graphic, is_name, name};
ghost use Rattle.words.specs.Reading.{Gives};

use crate::unread::Unread;
use crate::word::Word;
use octet_core::Octets;
use std::alloc::{AllocError, Global};

/// So many characters from 21 to 7E.
pub struct Name<const LEAST: u32, const MOST: u32>;

impl<const LEAST: u32, const MOST: u32> Word for Name<LEAST, MOST> {
    ghost use Rattle.std.specs.Prelude.{ℕ, List};
    ghost use Rattle.words.specs.Names.{name};

    type Value = Octets;

    ghost Seen = { List ℕ };

    ghost kind = { name LEAST MOST };

    ghost seen = { λ octets. octets };

    /// The octets of a word. One that is no name is refused as such, and not for want of memory:
    /// nothing is copied for it.
    fn read(alloc: Global, word: &[u8]) -> Result<Octets, Unread>
        ensures exact { Gives (λ octets. octets) result ((name LEAST MOST).read word.now) }
        ensures bad { is_name LEAST MOST word.now ≡ false → IsErrOf result Unread.Bad }
    {
        if word.len() >= LEAST as usize && word.len() <= MOST as usize && is_graphic(word) {
            Ok(Octets::copy_of(alloc, word)?)
        } else {
            Err(Unread::Bad)
        }
    }

    fn write(value: &Octets, into: &mut Vec<u8>) -> Result<(), AllocError> {
        into.extend_from_slice(value.as_slice())
    }
}

fn is_graphic(word: &[u8]) -> bool
    ensures { result ≡ list_all is_graphic word.now }
{
    word.iter().all(|octet| *octet >= 33 && *octet <= 126)
}
