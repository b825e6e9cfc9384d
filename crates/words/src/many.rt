// A row of so many words of one kind.
ghost use Rattle.std.specs.Prelude.{◌≡◌, ◌++◌, OnOk, OnErr, map};
ghost use Rattle.words.specs.Front.{AppendsFront};
ghost use Rattle.words.specs.Many.{each_read, each_fits};
ghost use Rattle.words.specs.Parts.{behind};
ghost use Rattle.words.specs.Reading.{Gives, parts_behind};

use crate::split::{count_parts, split_part};
use crate::unread::Unread;
use crate::word::Word;
use crate::words_row::{Words, WriteWords};
use std::alloc::{AllocError, Global};
use std::marker::PhantomData;

/// So many words of one kind.
pub struct Many<W, const LEAST: u32, const MOST: u32>(PhantomData<W>);

impl<W: Word, const LEAST: u32, const MOST: u32> Words for Many<W, LEAST, MOST> {
    ghost use Rattle.std.specs.Prelude.{List, map};
    ghost use Rattle.words.specs.Many.{many};

    type Value = Vec<W::Value>;

    ghost Seen = { List W.Seen };

    ghost kinds = { many W.kind LEAST MOST };

    ghost seen = { λ v. map W.seen v.items };

    fn read(alloc: Global, separator: u8, words: Option<&[u8]>) -> Result<Vec<W::Value>, Unread> {
        let all = each::<W>(alloc, separator, words)?;
        if all.len() >= LEAST as usize && all.len() <= MOST as usize {
            Ok(all)
        } else {
            Err(Unread::Bad)
        }
    }

    fn takes(count: usize) -> bool {
        count >= LEAST as usize && count <= MOST as usize
    }
}

impl<'a, W: Word, const LEAST: u32, const MOST: u32> WriteWords<'a> for Many<W, LEAST, MOST>
where
    W::Value: 'a,
{
    ghost use Rattle.std.specs.Prelude.{List, map};
    ghost use Rattle.words.specs.Many.{many};

    type Lent = &'a Vec<W::Value>;

    ghost Seen = { List W.Seen };

    ghost kinds = { many W.kind LEAST MOST };

    ghost lent = { λ values. map W.seen values.now.items };

    fn put(separator: u8, value: &'a Vec<W::Value>, into: &mut Vec<u8>) -> Result<(), AllocError> {
        put_each::<W>(separator, value.as_slice(), into)
    }
}

fn each<W: Word>(
    alloc: Global,
    separator: u8,
    words: Option<&[u8]>,
) -> Result<Vec<W::Value>, Unread>
    ensures { Gives (λ all. map W.seen all.items) result
        (each_read W.kind.read (parts_behind separator words.entry)) }
{
    let mut all = Vec::new(alloc);
    let mut rest = words;
    while let Some(text) = rest {
        let (word, more) = split_part(separator, text);
        let value = W::read(alloc, word)?;
        all.push(value)?;
        rest = more;
    }
    Ok(all)
}

// Appends each value's canonical spelling behind a separator.
#[tactic(auto, using(crate::specs::Front::front_kept, crate::specs::Front::front_here, crate::specs::Front::front_onwards, crate::specs::Front::front_behind))]
pub(crate) fn put_each<W: Word>(
    separator: u8,
    values: &[W::Value],
    into: &mut Vec<u8>,
) -> Result<(), AllocError>
    requires { each_fits W.kind.Fits (map W.seen values.now) }
    ensures ok { OnOk result (into.new.items ≡ into.old.items
        ++ behind separator (map W.kind.write (map W.seen values.now))) }
    ensures err { OnErr result (AppendsFront into.old.items into.new.items
        (behind separator (map W.kind.write (map W.seen values.now)))) }
{
    let mut rest = values;
    while let Some((value, more)) = rest.split_first() {
        into.push(separator)?;
        W::write(value, into)?;
        rest = more;
    }
    Ok(())
}
