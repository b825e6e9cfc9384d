// Whether a notice is wanted, as a word.

use std::alloc::{AllocError, Global};
use words::{Unread, Word};

const WANTED: &[u8] = b"0";

const NOT_WANTED: &[u8] = b"1";

/// 0 where a notice is wanted, 1 where it isn't.
pub struct NoticeWord;

impl Word for NoticeWord {
    ghost use Rattle.std.specs.Prelude.{Bool};
    ghost use Rattle.drill_text.specs.Kinds.{notice};

    type Value = bool;

    ghost Seen = { Bool };

    ghost kind = { notice };

    ghost seen = { λ value. value };

    fn read(_: Global, word: &[u8]) -> Result<bool, Unread> {
        if word == WANTED {
            Ok(true)
        } else if word == NOT_WANTED {
            Ok(false)
        } else {
            Err(Unread::Bad)
        }
    }

    fn write(value: &bool, into: &mut Vec<u8>) -> Result<(), AllocError> {
        into.extend_from_slice(if *value { WANTED } else { NOT_WANTED })
    }
}
