// The words that name an owner.
ghost use Rattle.std.specs.Prelude.{◌≡◌, false, IsErrOf};
ghost use Rattle.std.specs.List.{list_all};
ghost use Rattle.words.specs.Names.{is_graphic};
ghost use Rattle.words.specs.Reading.{Gives};
ghost use Rattle.station_config.specs.Kinds.{is_owner, owner};

use octet_core::Octets;
use std::alloc::{AllocError, Global};
use words::{Unread, Word};

/// The name of an owner: any word of characters from 21 to 7E.
pub(crate) struct OwnerWord;

impl Word for OwnerWord {
    ghost use Rattle.std.specs.Prelude.{ℕ, List};
    ghost use Rattle.station_config.specs.Kinds.{owner};

    type Value = Octets;

    ghost Seen = { List ℕ };

    ghost kind = { owner };

    ghost seen = { λ octets. octets };

    /// The octets of a word. One that names no owner is refused as such, and not for want of
    /// memory: nothing is copied for it.
    fn read(alloc: Global, word: &[u8]) -> Result<Octets, Unread>
        ensures exact { Gives (λ octets. octets) result (owner.read word.now) }
        ensures bad { is_owner word.now ≡ false → IsErrOf result Unread.Bad }
    {
        if !word.is_empty() && is_graphic(word) {
            Ok(Octets::copy_of(alloc, word)?)
        } else {
            Err(Unread::Bad)
        }
    }

    fn write(value: &Octets, into: &mut Vec<u8>) -> Result<(), AllocError> {
        into.extend_from_slice(value.as_slice())
    }
}

fn is_graphic(word: &[u8]) -> bool
    ensures { result ≡ list_all is_graphic word.now }
{
    word.iter().all(|octet| *octet >= 33 && *octet <= 126)
}
