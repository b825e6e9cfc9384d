// The words that say whether a notice is wanted.

use std::alloc::{AllocError, Global};
use words::{Unread, Word};

const WANTED: &[u8] = b"0";

const UNWANTED: &[u8] = b"1";

/// Whether a notice of the radiation is wanted: `0` it is, `1` it isn't.
pub(crate) struct NotifyWord;

impl Word for NotifyWord {
    ghost use Rattle.std.specs.Prelude.{Bool};
    ghost use Rattle.cltu_lines.specs.CltuText.{notify};

    type Value = bool;

    ghost Seen = { Bool };

    ghost kind = { notify };

    ghost seen = { λ value. value };

    fn read(_: Global, word: &[u8]) -> Result<bool, Unread> {
        if word == WANTED {
            Ok(true)
        } else if word == UNWANTED {
            Ok(false)
        } else {
            Err(Unread::Bad)
        }
    }

    fn write(value: &bool, into: &mut Vec<u8>) -> Result<(), AllocError> {
        into.extend_from_slice(if *value { WANTED } else { UNWANTED })
    }
}
