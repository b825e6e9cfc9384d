// A row of one word.
ghost use Rattle.std.specs.Prelude.{◌≡◌};

use crate::split::split_part;
use crate::unread::Unread;
use crate::word::Word;
use crate::words_row::{Words, WriteWords};
use std::alloc::{AllocError, Global};
use std::marker::PhantomData;

/// The last word of a row.
pub struct Last<W>(PhantomData<W>);

impl<W: Word> Words for Last<W> {
    ghost use Rattle.words.specs.Last.{last};

    type Value = W::Value;

    ghost Seen = { W.Seen };

    ghost kinds = { last W.kind };

    ghost seen = { W.seen };

    fn read(alloc: Global, separator: u8, words: Option<&[u8]>) -> Result<W::Value, Unread> {
        let (word, more) = split_part(separator, words.ok_or(Unread::Bad)?);
        if more.is_some() {
            return Err(Unread::Bad);
        }
        W::read(alloc, word)
    }

    fn takes(count: usize) -> bool {
        count == 1
    }
}

impl<'a, W: Word> WriteWords<'a> for Last<W>
where
    W::Value: 'a,
{
    ghost use Rattle.words.specs.Last.{last};

    type Lent = &'a W::Value;

    ghost Seen = { W.Seen };

    ghost kinds = { last W.kind };

    ghost lent = { λ value. W.seen value.now };

    fn put(separator: u8, value: &'a W::Value, into: &mut Vec<u8>) -> Result<(), AllocError> {
        into.push(separator)?;
        W::write(value, into)
    }
}
