// A word, and a row behind it.
ghost use Rattle.std.specs.Prelude.{◌≡◌};

use crate::split::split_part;
use crate::unread::Unread;
use crate::word::Word;
use crate::words_row::{Words, WriteWords};
use std::alloc::{AllocError, Global};
use std::marker::PhantomData;

/// A word, and the row behind it.
pub struct Then<W, R>(PhantomData<(W, R)>);

impl<W: Word, R: Words> Words for Then<W, R> {
    ghost use Rattle.words.specs.Then.{and_then};

    type Value = (W::Value, R::Value);

    ghost Seen = { W.Seen × R.Seen };

    ghost kinds = { and_then W.kind R.kinds };

    ghost seen = { λ value. (W.seen value.0, R.seen value.1) };

    fn read(
        alloc: Global,
        separator: u8,
        words: Option<&[u8]>,
    ) -> Result<(W::Value, R::Value), Unread> {
        let (word, more) = split_part(separator, words.ok_or(Unread::Bad)?);
        let first = W::read(alloc, word)?;
        let others = R::read(alloc, separator, more)?;
        Ok((first, others))
    }

    fn takes(count: usize) -> bool {
        count > 0 && R::takes(count - 1)
    }
}

impl<'a, W: Word, R: WriteWords<'a>> WriteWords<'a> for Then<W, R>
where
    W::Value: 'a,
{
    ghost use Rattle.words.specs.Then.{and_then};

    type Lent = (&'a W::Value, R::Lent);

    ghost Seen = { W.Seen × R.Seen };

    ghost kinds = { and_then W.kind R.kinds };

    ghost lent = { λ value. (W.seen value.0.now, R.lent value.1) };

    #[tactic(auto, using(crate::specs::Front::front_behind))]
    fn put(
        separator: u8,
        value: (&'a W::Value, R::Lent),
        into: &mut Vec<u8>,
    ) -> Result<(), AllocError> {
        let (first, others) = value;
        into.push(separator)?;
        W::write(first, into)?;
        R::put(separator, others, into)
    }
}
