// Fixed words.
ghost use Rattle.std.specs.Prelude.{◌≡◌, List, ℕ};

use crate::unread::Unread;
use crate::word::Word;
use std::alloc::{AllocError, Global};
use std::marker::PhantomData;

/// A text that is known.
pub trait FixedText {
    ghost TEXT: { List ℕ };

    fn text() -> &'static [u8]
        ensures { result.now ≡ TEXT };
}

/// A fixed word.
pub struct Fixed<T>(PhantomData<T>);

impl<T: FixedText> Word for Fixed<T> {
    ghost use Rattle.words.specs.Fixed.{fixed};

    type Value = ();

    ghost Seen = { Unit {0} };

    ghost kind = { fixed T.TEXT };

    ghost seen = { λ _. tt };

    fn read(_: Global, word: &[u8]) -> Result<(), Unread> {
        if word == T::text() {
            Ok(())
        } else {
            Err(Unread::Bad)
        }
    }

    fn write(_: &(), into: &mut Vec<u8>) -> Result<(), AllocError> {
        into.extend_from_slice(T::text())
    }
}
