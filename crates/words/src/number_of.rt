// Words that are numbers of a standard's table.

use crate::number::Octet;
use crate::unread::Unread;
use crate::word::Word;
use sle_numbers::Numbered;
use std::alloc::{AllocError, Global};
use std::marker::PhantomData;

/// The number of one of these values.
pub struct NumberOf<T>(PhantomData<T>);

impl<T: Numbered> Word for NumberOf<T> {
    ghost use Rattle.words.specs.Numbers.{numbered};

    type Value = T;

    ghost Seen = { T };

    ghost kind = { numbered T.number_of T.all T.each };

    ghost seen = { λ value. value };

    fn read(alloc: Global, word: &[u8]) -> Result<T, Unread> {
        let number = Octet::<0, 127>::read(alloc, word)?;
        T::from_number(number).ok_or(Unread::Bad)
    }

    fn write(value: &T, into: &mut Vec<u8>) -> Result<(), AllocError> {
        Octet::<0, 127>::write(&value.number(), into)
    }
}
