// A row of no words.
ghost use Rattle.std.specs.Prelude.{◌≡◌};

use crate::unread::Unread;
use crate::words_row::{Words, WriteWords};
use std::alloc::{AllocError, Global};

/// No further word.
pub struct Nothing;

impl Words for Nothing {
    ghost use Rattle.words.specs.Row.{nothing};

    type Value = ();

    ghost Seen = { Unit {0} };

    ghost kinds = { nothing };

    ghost seen = { λ _. tt };

    #[tactic(auto, using(crate::proofs::Parts::none_behind))]
    fn read(_: Global, _: u8, words: Option<&[u8]>) -> Result<(), Unread> {
        match words {
            None => Ok(()),
            Some(_) => Err(Unread::Bad),
        }
    }

    fn takes(count: usize) -> bool {
        count == 0
    }
}

impl<'a> WriteWords<'a> for Nothing {
    ghost use Rattle.words.specs.Row.{nothing};

    type Lent = ();

    ghost Seen = { Unit {0} };

    ghost kinds = { nothing };

    ghost lent = { λ _. tt };

    fn put(_: u8, _: (), _: &mut Vec<u8>) -> Result<(), AllocError> {
        Ok(())
    }
}
