// Lines of a stream by their words.
#![tactic(auto, unfolding(crate::specs::Stream::form_reading))]

ghost use Rattle.std.specs.Prelude.{◌≡◌, None};
ghost use Rattle.words.specs.Line.{reading};
ghost use Rattle.words.specs.Reading.{Gives, parts_behind};
ghost use Rattle.explain_lines.specs.Stream.{heard, lines, form_reading, raf_frame, octet};
ghost use Rattle.explain_lines.specs.Kinds.{integer};
ghost use Rattle.words.specs.Last.{last};
ghost use Rattle.words.specs.Then.{◌▸◌};
ghost use Rattle.explain_lines.specs.declared.stream_form.StreamForm.TheVariants as form;

use crate::kinds::{AntennaWord, ContinuityWord, FieldsWord, IntegerWord};
use crate::stream_form::StreamForm;
use crate::stream_line::StreamLine;
use fcltu_numbers::CltuNotificationType;
use sle_numbers::{FrameQuality, LockStatus};
use std::alloc::Global;
use words::{
    Fixed, FixedText, Hex, Last, Listed, Long, Many, Nothing, Number, NumberOf, Octet, Then,
    Unread, Words, split_part,
};

/// What a line of a stream says, its end left away.
pub fn parse_stream(alloc: Global, line: &[u8]) -> Result<StreamLine, Unread>
    ensures { Gives heard result (reading lines line.now) }
{
    let (word, words) = split_part(b' ', line);
    let form = StreamForm::from_word(word).ok_or(Unread::Bad)?;
    read_form(alloc, form, words)
}

type Any8 = Octet<0, 255>;

type Any32 = Number<0, 4_294_967_295>;

type Any64 = Long<0, 18_446_744_073_709_551_615>;

type Content = Then<ContinuityWord, Then<AntennaWord, Last<Hex<1, 65_536>>>>;

type RafFrame = Then<FieldsWord, Then<NumberOf<FrameQuality>, Content>>;

type RcfFrame = Then<FieldsWord, Content>;

type Lock = NumberOf<LockStatus>;

type Room = Then<Any32, Last<IntegerWord>>;

// The second word of `bad message`.
struct MessageWord;

impl FixedText for MessageWord {
    ghost use Rattle.std.specs.Prelude.{codes};

    ghost TEXT = { codes "message" };

    fn text() -> &'static [u8] {
        b"message"
    }
}

// What the words behind a form's word say.
#[tactic(auto)]
fn read_form(alloc: Global, form: StreamForm, words: Option<&[u8]>) -> Result<StreamLine, Unread>
    ensures { Gives heard result (form_reading form (parts_behind 32 words.entry)) }
{
    match form {
        StreamForm::Frame => read_frame(alloc, words),
        StreamForm::Loss => read_loss(alloc, words),
        StreamForm::Production => read_production(alloc, words),
        StreamForm::Backlog => read_backlog(alloc, words),
        StreamForm::End => read_end(alloc, words),
        StreamForm::Ok => read_ok(alloc, words),
        StreamForm::No => read_no(alloc, words),
        StreamForm::Notice => read_notice(alloc, words),
        StreamForm::Report => read_report(alloc, words),
        StreamForm::Abort => read_abort(alloc, words),
        StreamForm::Parameter => read_parameter(alloc, words),
        StreamForm::Invoke => read_invoke(alloc, words),
        StreamForm::Bad => read_bad(alloc, words),
    }
}

fn read_frame(alloc: Global, words: Option<&[u8]>) -> Result<StreamLine, Unread>
    ensures { Gives heard result (form_reading form.Frame (parts_behind 32 words.entry)) }
{
    match RafFrame::read(alloc, b' ', words) {
        Ok((at, (quality, (missing, (antenna, octets))))) => Ok(StreamLine::Frame {
            at,
            quality: Some(quality),
            missing,
            antenna,
            octets,
        }),
        Err(Unread::Bad) => read_rcf_frame(alloc, words),
        Err(Unread::Memory) => Err(Unread::Memory),
    }
}

fn read_rcf_frame(alloc: Global, words: Option<&[u8]>) -> Result<StreamLine, Unread>
    requires { raf_frame.read (parts_behind 32 words) ≡ None }
    ensures { Gives heard result (form_reading form.Frame (parts_behind 32 words.entry)) }
{
    let (at, (missing, (antenna, octets))) = RcfFrame::read(alloc, b' ', words)?;
    Ok(StreamLine::Frame {
        at,
        quality: None,
        missing,
        antenna,
        octets,
    })
}

fn read_loss(alloc: Global, words: Option<&[u8]>) -> Result<StreamLine, Unread>
    ensures { Gives heard result (form_reading form.Loss (parts_behind 32 words.entry)) }
{
    let (at, (carrier, (subcarrier, symbol))) = Then::<
        FieldsWord,
        Then<Lock, Then<Lock, Last<Lock>>>,
    >::read(alloc, b' ', words)?;
    Ok(StreamLine::Loss {
        at,
        carrier,
        subcarrier,
        symbol,
    })
}

fn read_production(alloc: Global, words: Option<&[u8]>) -> Result<StreamLine, Unread>
    ensures { Gives heard result (form_reading form.Production (parts_behind 32 words.entry)) }
{
    let status = Last::<IntegerWord>::read(alloc, b' ', words)?;
    Ok(StreamLine::Production(status))
}

fn read_backlog(alloc: Global, words: Option<&[u8]>) -> Result<StreamLine, Unread>
    ensures { Gives heard result (form_reading form.Backlog (parts_behind 32 words.entry)) }
{
    Nothing::read(alloc, b' ', words)?;
    Ok(StreamLine::Backlog)
}

fn read_end(alloc: Global, words: Option<&[u8]>) -> Result<StreamLine, Unread>
    ensures { Gives heard result (form_reading form.End (parts_behind 32 words.entry)) }
{
    Nothing::read(alloc, b' ', words)?;
    Ok(StreamLine::End)
}

fn read_ok(alloc: Global, words: Option<&[u8]>) -> Result<StreamLine, Unread>
    ensures { Gives heard result (form_reading form.Ok (parts_behind 32 words.entry)) }
{
    match Last::<Any8>::read(alloc, b' ', words) {
        Ok(tag) => Ok(StreamLine::Done { tag }),
        Err(Unread::Bad) => read_taken(alloc, words),
        Err(Unread::Memory) => Err(Unread::Memory),
    }
}

fn read_taken(alloc: Global, words: Option<&[u8]>) -> Result<StreamLine, Unread>
    requires { (last octet).read (parts_behind 32 words) ≡ None }
    ensures { Gives heard result (form_reading form.Ok (parts_behind 32 words.entry)) }
{
    let (tag, (next, free)) = Then::<Any8, Room>::read(alloc, b' ', words)?;
    Ok(StreamLine::Taken { tag, next, free })
}

fn read_no(alloc: Global, words: Option<&[u8]>) -> Result<StreamLine, Unread>
    ensures { Gives heard result (form_reading form.No (parts_behind 32 words.entry)) }
{
    match Then::<Any8, Last<IntegerWord>>::read(alloc, b' ', words) {
        Ok((tag, diagnostic)) => Ok(StreamLine::Refused { tag, diagnostic }),
        Err(Unread::Bad) => read_not_taken(alloc, words),
        Err(Unread::Memory) => Err(Unread::Memory),
    }
}

fn read_not_taken(alloc: Global, words: Option<&[u8]>) -> Result<StreamLine, Unread>
    requires { (octet ▸ last integer).read (parts_behind 32 words) ≡ None }
    ensures { Gives heard result (form_reading form.No (parts_behind 32 words.entry)) }
{
    let (tag, (diagnostic, (next, free))) = Then::<Any8, Then<IntegerWord, Room>>::read(
        alloc, b' ', words,
    )?;
    Ok(StreamLine::NotTaken {
        tag,
        diagnostic,
        next,
        free,
    })
}

fn read_notice(alloc: Global, words: Option<&[u8]>) -> Result<StreamLine, Unread>
    ensures { Gives heard result (form_reading form.Notice (parts_behind 32 words.entry)) }
{
    let kind = Last::<NumberOf<CltuNotificationType>>::read(alloc, b' ', words)?;
    Ok(StreamLine::Notice(kind))
}

fn read_report(alloc: Global, words: Option<&[u8]>) -> Result<StreamLine, Unread>
    ensures { Gives heard result (form_reading form.Report (parts_behind 32 words.entry)) }
{
    let numbers = Many::<IntegerWord, 6, 7>::read(alloc, b' ', words)?;
    Ok(StreamLine::Report(numbers))
}

fn read_abort(alloc: Global, words: Option<&[u8]>) -> Result<StreamLine, Unread>
    ensures { Gives heard result (form_reading form.Abort (parts_behind 32 words.entry)) }
{
    let diagnostic = Last::<Any8>::read(alloc, b' ', words)?;
    Ok(StreamLine::Aborted(diagnostic))
}

fn read_parameter(alloc: Global, words: Option<&[u8]>) -> Result<StreamLine, Unread>
    ensures { Gives heard result (form_reading form.Parameter (parts_behind 32 words.entry)) }
{
    let name = Last::<Any8>::read(alloc, b' ', words)?;
    Ok(StreamLine::Parameter(name))
}

fn read_invoke(alloc: Global, words: Option<&[u8]>) -> Result<StreamLine, Unread>
    ensures { Gives heard result (form_reading form.Invoke (parts_behind 32 words.entry)) }
{
    let tag = Last::<Any8>::read(alloc, b' ', words)?;
    Ok(StreamLine::Invoked { tag })
}

fn read_bad(alloc: Global, words: Option<&[u8]>) -> Result<StreamLine, Unread>
    ensures { Gives heard result (form_reading form.Bad (parts_behind 32 words.entry)) }
{
    let ((), place) = Then::<Fixed<MessageWord>, Last<Any64>>::read(alloc, b' ', words)?;
    Ok(StreamLine::Bad { place })
}
