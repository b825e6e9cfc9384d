// Whether a radiation fails, as a row of one word at most.

use std::alloc::Global;
use words::{Fixed, FixedText, Maybe, Unread, Words};

/// The word `fail`.
pub struct Fail;

impl FixedText for Fail {
    ghost use Rattle.std.specs.Prelude.{codes};

    ghost TEXT = { codes "fail" };

    fn text() -> &'static [u8] {
        b"fail"
    }
}

type AtMost = Maybe<Fixed<Fail>>;

/// `fail`, or no word.
pub struct FailRow;

impl Words for FailRow {
    ghost use Rattle.std.specs.Prelude.{Bool};
    ghost use Rattle.drill_text.specs.Kinds.{fails};

    type Value = bool;

    ghost Seen = { Bool };

    ghost kinds = { fails };

    ghost seen = { λ value. value };

    fn read(alloc: Global, separator: u8, words: Option<&[u8]>) -> Result<bool, Unread> {
        match AtMost::read(alloc, separator, words)? {
            Some(()) => Ok(true),
            None => Ok(false),
        }
    }

    fn takes(count: usize) -> bool {
        count <= 1
    }
}
