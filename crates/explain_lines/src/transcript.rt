// Lines of a transcript by their words.
#![tactic(auto, unfolding(crate::specs::Transcribed::form_reading))]

ghost use Rattle.std.specs.Prelude.{◌≡◌, None};
ghost use Rattle.drill_text.specs.Transcript.{lines};
ghost use Rattle.drill_text.specs.Transcript as form;
ghost use Rattle.words.specs.Line.{reading};
ghost use Rattle.words.specs.Reading.{Gives, parts_behind};
ghost use Rattle.explain_lines.specs.Transcribed.{heard, form_of, form_reading};

use crate::end_row::EndRow;
use crate::hex_word::HexWord;
use crate::transcribed::Transcribed;
use crate::transcript_form::TranscriptForm;
use std::alloc::Global;
use words::{Fixed, FixedText, Last, Long, Nothing, Number, Then, Unread, Words, split_part};

/// What a line of a transcript says, its end left away.
pub fn parse_transcript(alloc: Global, line: &[u8]) -> Result<Transcribed, Unread>
    ensures { Gives heard result (reading lines line.now) }
{
    let (word, words) = split_part(b' ', line);
    let form = TranscriptForm::from_word(word).ok_or(Unread::Bad)?;
    read_form(alloc, form, words)
}

type Count = Number<0, 4_294_967_295>;

type Any = Long<0, 18_446_744_073_709_551_615>;

type Counts = Then<Count, Last<Count>>;

type Anys = Then<Any, Last<Any>>;

type Message = Then<Count, Last<HexWord>>;

// The second word of `too long`.
struct LongWord;

impl FixedText for LongWord {
    ghost use Rattle.std.specs.Prelude.{codes};

    ghost TEXT = { codes "long" };

    fn text() -> &'static [u8] {
        b"long"
    }
}

// The second word of `refused 3`.
struct ThreeWord;

impl FixedText for ThreeWord {
    ghost use Rattle.std.specs.Prelude.{codes};

    ghost TEXT = { codes "3" };

    fn text() -> &'static [u8] {
        b"3"
    }
}

// What the words behind a form's word say.
#[tactic(auto)]
fn read_form(
    alloc: Global,
    form: TranscriptForm,
    words: Option<&[u8]>,
) -> Result<Transcribed, Unread>
    ensures { Gives heard result (form_reading (form_of form) (parts_behind 32 words.entry)) }
{
    match form {
        TranscriptForm::Sent => read_sent(alloc, words),
        TranscriptForm::Stalled => read_stalled(alloc, words),
        TranscriptForm::Discarded => read_discarded(alloc, words),
        TranscriptForm::Ended => read_ended(alloc, words),
        TranscriptForm::Backward => read_backward(alloc, words),
        TranscriptForm::Too => read_too(alloc, words),
        TranscriptForm::Full => read_full(alloc, words),
        TranscriptForm::Fault => read_fault(alloc, words),
        TranscriptForm::Crash => read_crash(alloc, words),
        TranscriptForm::Archive => read_archive(alloc, words),
        TranscriptForm::Radiated => read_radiated(alloc, words),
        TranscriptForm::Expired => read_expired(alloc, words),
        TranscriptForm::Waits => read_waits(alloc, words),
        TranscriptForm::Idle => read_idle(alloc, words),
        TranscriptForm::Failed => read_failed(alloc, words),
        TranscriptForm::Refused => read_refused(alloc, words),
    }
}

fn read_sent(alloc: Global, words: Option<&[u8]>) -> Result<Transcribed, Unread>
    ensures { Gives heard result (form_reading form.sent (parts_behind 32 words.entry)) }
{
    let (c, octets) = Message::read(alloc, b' ', words)?;
    Ok(Transcribed::Sent { c, octets })
}

fn read_stalled(alloc: Global, words: Option<&[u8]>) -> Result<Transcribed, Unread>
    ensures { Gives heard result (form_reading form.stalled (parts_behind 32 words.entry)) }
{
    let c = Last::<Count>::read(alloc, b' ', words)?;
    Ok(Transcribed::Stalled { c })
}

fn read_discarded(alloc: Global, words: Option<&[u8]>) -> Result<Transcribed, Unread>
    ensures { Gives heard result (form_reading form.discarded (parts_behind 32 words.entry)) }
{
    let (c, n) = Counts::read(alloc, b' ', words)?;
    Ok(Transcribed::Discarded { c, n })
}

fn read_ended(alloc: Global, words: Option<&[u8]>) -> Result<Transcribed, Unread>
    ensures { Gives heard result (form_reading form.ended (parts_behind 32 words.entry)) }
{
    let (c, word) = Then::<Count, EndRow>::read(alloc, b' ', words)?;
    Ok(Transcribed::Ended { c, word })
}

fn read_backward(alloc: Global, words: Option<&[u8]>) -> Result<Transcribed, Unread>
    ensures { Gives heard result (form_reading form.backward (parts_behind 32 words.entry)) }
{
    Nothing::read(alloc, b' ', words)?;
    Ok(Transcribed::Backward)
}

fn read_too(alloc: Global, words: Option<&[u8]>) -> Result<Transcribed, Unread>
    ensures { Gives heard result (form_reading form.too (parts_behind 32 words.entry)) }
{
    Last::<Fixed<LongWord>>::read(alloc, b' ', words)?;
    Ok(Transcribed::TooLong)
}

fn read_full(alloc: Global, words: Option<&[u8]>) -> Result<Transcribed, Unread>
    ensures { Gives heard result (form_reading form.full (parts_behind 32 words.entry)) }
{
    let (need, free) = Anys::read(alloc, b' ', words)?;
    Ok(Transcribed::Full { need, free })
}

fn read_fault(alloc: Global, words: Option<&[u8]>) -> Result<Transcribed, Unread>
    ensures { Gives heard result (form_reading form.fault (parts_behind 32 words.entry)) }
{
    Nothing::read(alloc, b' ', words)?;
    Ok(Transcribed::Fault)
}

fn read_crash(alloc: Global, words: Option<&[u8]>) -> Result<Transcribed, Unread>
    ensures { Gives heard result (form_reading form.crash (parts_behind 32 words.entry)) }
{
    Nothing::read(alloc, b' ', words)?;
    Ok(Transcribed::Crash)
}

fn read_archive(alloc: Global, words: Option<&[u8]>) -> Result<Transcribed, Unread>
    ensures { Gives heard result (form_reading form.archive (parts_behind 32 words.entry)) }
{
    let entries = Last::<Any>::read(alloc, b' ', words)?;
    Ok(Transcribed::Archive { entries })
}

fn read_radiated(alloc: Global, words: Option<&[u8]>) -> Result<Transcribed, Unread>
    ensures { Gives heard result (form_reading form.radiated (parts_behind 32 words.entry)) }
{
    let (id, octets) = Message::read(alloc, b' ', words)?;
    Ok(Transcribed::Radiated { id, octets })
}

fn read_expired(alloc: Global, words: Option<&[u8]>) -> Result<Transcribed, Unread>
    ensures { Gives heard result (form_reading form.expired (parts_behind 32 words.entry)) }
{
    let id = Last::<Count>::read(alloc, b' ', words)?;
    Ok(Transcribed::Expired { id })
}

fn read_waits(alloc: Global, words: Option<&[u8]>) -> Result<Transcribed, Unread>
    ensures { Gives heard result (form_reading form.waits (parts_behind 32 words.entry)) }
{
    Nothing::read(alloc, b' ', words)?;
    Ok(Transcribed::Waits)
}

fn read_idle(alloc: Global, words: Option<&[u8]>) -> Result<Transcribed, Unread>
    ensures { Gives heard result (form_reading form.idle (parts_behind 32 words.entry)) }
{
    Nothing::read(alloc, b' ', words)?;
    Ok(Transcribed::Idle)
}

fn read_failed(alloc: Global, words: Option<&[u8]>) -> Result<Transcribed, Unread>
    ensures { Gives heard result (form_reading form.failed (parts_behind 32 words.entry)) }
{
    let id = Last::<Count>::read(alloc, b' ', words)?;
    Ok(Transcribed::Failed { id })
}

fn read_refused(alloc: Global, words: Option<&[u8]>) -> Result<Transcribed, Unread>
    ensures { Gives heard result (form_reading form.refused (parts_behind 32 words.entry)) }
{
    Last::<Fixed<ThreeWord>>::read(alloc, b' ', words)?;
    Ok(Transcribed::Refused)
}
