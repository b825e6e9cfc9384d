// Lines by their words.
ghost use Rattle.std.specs.Prelude.{◌≡◌, ◌++◌, IfOk, OnOk, OnErr};
ghost use Rattle.words.specs.Front.{AppendsFront};
ghost use Rattle.words.specs.Judged.{judged};
ghost use Rattle.words.specs.Line.{reading, spelling};
ghost use Rattle.words.specs.Reading.{Gives, Judges, parts_behind};
ghost use Rattle.words.specs.Then.{and_then};

use crate::cause::Cause;
use crate::line_fault::LineFault;
use crate::split::count_parts;
use crate::unread::Unread;
use crate::word::Word;
use crate::words_row::{Words, WriteWords};
use std::alloc::{AllocError, Global};

/// The value of a word.
#[tactic(auto, using(crate::proofs::Fitting::word_fits))]
pub fn read_word<W: Word>(alloc: Global, word: &[u8]) -> Result<W::Value, Unread>
    ensures exact { Gives W.seen result (W.kind.read word.now) }
    ensures fits { IfOk result (λ value. W.kind.Fits (W.seen value)) }
{
    W::read(alloc, word)
}

/// What a line says, its end left away.
#[tactic(auto, using(crate::proofs::Fitting::row_fits))]
pub fn read_line<R: Words>(alloc: Global, line: &[u8]) -> Result<R::Value, Unread>
    ensures exact { Gives R.seen result (reading R.kinds line.now) }
    ensures fits { IfOk result (λ value. R.kinds.Fits (R.seen value)) }
{
    R::read(alloc, b' ', Some(line))
}

/// The value of the words behind a line's first one, or why they give none: their number comes
/// before what they are.
#[tactic(auto, using(crate::proofs::Fitting::judged_fits))]
pub fn read_row<R: Words>(alloc: Global, words: Option<&[u8]>) -> Result<R::Value, LineFault>
    ensures exact { Judges R.seen result (judged R.kinds (parts_behind 32 words.entry)) }
    ensures fits { IfOk result (λ value. R.kinds.Fits (R.seen value)) }
{
    judge::<R>(alloc, words)
}

fn judge<R: Words>(alloc: Global, words: Option<&[u8]>) -> Result<R::Value, LineFault>
    ensures { Judges R.seen result (judged R.kinds (parts_behind 32 words.entry)) }
{
    if !R::takes(count_parts(b' ', words)) {
        return Err(LineFault::Line(Cause::Count));
    }
    match R::read(alloc, b' ', words) {
        Ok(value) => Ok(value),
        Err(Unread::Bad) => Err(LineFault::Line(Cause::Word)),
        Err(Unread::Memory) => Err(LineFault::Memory),
    }
}

/// Appends the canonical line of a first word and the row behind it, without its end. Where memory
/// is refused, a front of it may stand there.
pub fn write_line<'a, W: Word, R: WriteWords<'a>>(
    first: &W::Value,
    others: R::Lent,
    into: &mut Vec<u8>,
) -> Result<(), AllocError>
    requires { (and_then W.kind R.kinds).Fits (W.seen first.now, R.lent others) }
    ensures ok { OnOk result (into.new.items ≡ into.old.items
        ++ spelling (and_then W.kind R.kinds) (W.seen first.now, R.lent others)) }
    ensures err { OnErr result (AppendsFront into.old.items into.new.items
        (spelling (and_then W.kind R.kinds) (W.seen first.now, R.lent others))) }
{
    W::write(first, into)?;
    R::put(b' ', others, into)
}
