// A row of one word at most.
ghost use Rattle.std.specs.Prelude.{Option};
ghost use Rattle.words.specs.Reading.{seen_option};

use crate::last::Last;
use crate::unread::Unread;
use crate::word::Word;
use crate::words_row::{Words, WriteWords};
use std::alloc::{AllocError, Global};
use std::marker::PhantomData;

/// One word at most.
pub struct Maybe<W>(PhantomData<W>);

impl<W: Word> Words for Maybe<W> {
    ghost use Rattle.words.specs.Maybe.{maybe};

    type Value = Option<W::Value>;

    ghost Seen = { Option W.Seen };

    ghost kinds = { maybe W.kind };

    ghost seen = { seen_option W.seen };

    #[tactic(auto, using(crate::proofs::Parts::none_behind))]
    fn read(
        alloc: Global,
        separator: u8,
        words: Option<&[u8]>,
    ) -> Result<Option<W::Value>, Unread> {
        match words {
            None => Ok(None),
            Some(text) => match Last::<W>::read(alloc, separator, Some(text)) {
                Ok(value) => Ok(Some(value)),
                Err(why) => Err(why),
            },
        }
    }

    fn takes(count: usize) -> bool {
        count <= 1
    }
}

impl<'a, W: Word> WriteWords<'a> for Maybe<W>
where
    W::Value: 'a,
{
    ghost use Rattle.words.specs.Maybe.{maybe};

    type Lent = &'a Option<W::Value>;

    ghost Seen = { Option W.Seen };

    ghost kinds = { maybe W.kind };

    ghost lent = { λ value. seen_option W.seen value.now };

    fn put(
        separator: u8,
        value: &'a Option<W::Value>,
        into: &mut Vec<u8>,
    ) -> Result<(), AllocError> {
        match value {
            None => Ok(()),
            Some(value) => {
                into.push(separator)?;
                W::write(value, into)
            }
        }
    }
}
