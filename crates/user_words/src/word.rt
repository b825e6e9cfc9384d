// Single words.
ghost use Rattle.std.specs.Prelude.{IfOk, IfSome};
ghost use Rattle.user_words.specs.Plan.{Finds};

use octet_core::Memory;
use std::alloc::Global;
use words::{Unread, Word, read_word};

// The value of a word, and none where it isn't of this kind.
pub(crate) fn read_one<W: Word>(alloc: Global, word: &str) -> Result<Option<W::Value>, Memory>
    ensures exact { IfOk result (λ found. Finds W.seen found (W.kind.read word.now)) }
    ensures fits { IfOk result (λ found. IfSome found (λ value. W.kind.Fits (W.seen value))) }
{
    match read_word::<W>(alloc, word.as_bytes()) {
        Ok(value) => Ok(Some(value)),
        Err(Unread::Bad) => Ok(None),
        Err(Unread::Memory) => Err(Memory),
    }
}
