// Words that are one of a list.
ghost use Rattle.std.specs.Prelude.{◌≡◌, List, ℕ};
ghost use Rattle.words.specs.Listed.{AreListed, value_of};

use crate::unread::Unread;
use crate::word::Word;
use std::alloc::{AllocError, Global};
use std::marker::PhantomData;

/// Values that have a word each.
pub trait Listed: Copy + Drop {
    ghost spelt: { Self → List ℕ };

    ghost all: { List Self };

    ghost each: { AreListed spelt all };

    /// The value that has this word.
    fn from_word(word: &[u8]) -> Option<Self>
        ensures { result ≡ value_of spelt all word.now };

    /// The value's word.
    fn word(self) -> &'static [u8]
        ensures { result.now ≡ spelt self };
}

/// The word of one of these values.
pub struct OneOf<T>(PhantomData<T>);

impl<T: Listed> Word for OneOf<T> {
    ghost use Rattle.words.specs.Listed.{listed};

    type Value = T;

    ghost Seen = { T };

    ghost kind = { listed T.spelt T.all T.each };

    ghost seen = { λ value. value };

    fn read(_: Global, word: &[u8]) -> Result<T, Unread> {
        T::from_word(word).ok_or(Unread::Bad)
    }

    fn write(value: &T, into: &mut Vec<u8>) -> Result<(), AllocError> {
        into.extend_from_slice(value.word())
    }
}
