// What stands behind `ask C`.
#![tactic(auto, unfolding(crate::specs::Asks::ask_reading))]

ghost use Rattle.std.specs.Prelude.{◌≡◌, None};
ghost use Rattle.words.specs.Reading.{Gives, parts_behind};
ghost use Rattle.drill_text.specs.Asks.{ask_reading, cltu_start};

use crate::ask_form::AskForm;
use crate::ask_line::AskLine;
use crate::notice_word::NoticeWord;
use crate::report_word::ReportWord;
use crate::wanted::Wanted;
use std::alloc::Global;
use words::{
    Hex, Identifier, Last, Listed, Name, Nothing, Number, Short, Then, Unread, When, Words,
    split_part,
};

/// A message that a peer sends.
pub struct AskRow;

impl Words for AskRow {
    ghost use Rattle.drill_text.specs.Asks.{ask};
    ghost use Rattle.drill_text.specs.declared.ask_line.AskLine.{AskLine};

    type Value = AskLine;

    ghost Seen = { AskLine };

    ghost kinds = { ask };

    ghost seen = { λ asked. asked };

    fn read(alloc: Global, separator: u8, words: Option<&[u8]>) -> Result<AskLine, Unread> {
        let (word, behind) = split_part(separator, words.ok_or(Unread::Bad)?);
        let form = AskForm::from_word(word).ok_or(Unread::Bad)?;
        read_form(alloc, form, separator, behind)
    }

    fn takes(count: usize) -> bool {
        count >= 1 && count <= 7
    }
}

type Any32 = Number<0, 4_294_967_295>;

type Any16 = Short<0, 65_535>;

type Context = Then<Any16, Last<Any16>>;

type Bind = Then<Name<3, 16>, Then<Any16, Then<Short<1, 65_535>, Last<Identifier>>>>;

type StartFrames = Then<When, Then<When, Last<Wanted>>>;

type Cltu = Then<
    Any32,
    Then<When, Then<When, Then<Any32, Then<NoticeWord, Last<Hex<1, 65_536>>>>>>,
>;

// What the words behind a form's word say.
#[tactic(auto)]
fn read_form(
    alloc: Global,
    form: AskForm,
    separator: u8,
    words: Option<&[u8]>,
) -> Result<AskLine, Unread>
    ensures { Gives (λ asked. asked) result
        (ask_reading form (parts_behind separator words.entry)) }
{
    match form {
        AskForm::Context => read_context(alloc, separator, words),
        AskForm::Bind => read_bind(alloc, separator, words),
        AskForm::Unbind => read_unbind(alloc, separator, words),
        AskForm::Start => read_start(alloc, separator, words),
        AskForm::Stop => read_stop(alloc, separator, words),
        AskForm::Report => read_report(alloc, separator, words),
        AskForm::Get => read_get(alloc, separator, words),
        AskForm::Cltu => read_cltu(alloc, separator, words),
    }
}

fn read_context(alloc: Global, separator: u8, words: Option<&[u8]>) -> Result<AskLine, Unread>
    ensures { Gives (λ asked. asked) result
        (ask_reading AskForm.Context (parts_behind separator words.entry)) }
{
    let (interval, factor) = Context::read(alloc, separator, words)?;
    Ok(AskLine::Context { interval, factor })
}

fn read_unbind(alloc: Global, separator: u8, words: Option<&[u8]>) -> Result<AskLine, Unread>
    ensures { Gives (λ asked. asked) result
        (ask_reading AskForm.Unbind (parts_behind separator words.entry)) }
{
    Nothing::read(alloc, separator, words)?;
    Ok(AskLine::Unbind)
}

fn read_stop(alloc: Global, separator: u8, words: Option<&[u8]>) -> Result<AskLine, Unread>
    ensures { Gives (λ asked. asked) result
        (ask_reading AskForm.Stop (parts_behind separator words.entry)) }
{
    Nothing::read(alloc, separator, words)?;
    Ok(AskLine::Stop)
}

fn read_report(alloc: Global, separator: u8, words: Option<&[u8]>) -> Result<AskLine, Unread>
    ensures { Gives (λ asked. asked) result
        (ask_reading AskForm.Report (parts_behind separator words.entry)) }
{
    let kind = Last::<ReportWord>::read(alloc, separator, words)?;
    Ok(AskLine::Report(kind))
}

fn read_get(alloc: Global, separator: u8, words: Option<&[u8]>) -> Result<AskLine, Unread>
    ensures { Gives (λ asked. asked) result
        (ask_reading AskForm.Get (parts_behind separator words.entry)) }
{
    let name = Last::<Any16>::read(alloc, separator, words)?;
    Ok(AskLine::Get { name })
}

fn read_bind(alloc: Global, separator: u8, words: Option<&[u8]>) -> Result<AskLine, Unread>
    ensures { Gives (λ asked. asked) result
        (ask_reading AskForm.Bind (parts_behind separator words.entry)) }
{
    let (name, (service, (version, id))) = Bind::read(alloc, separator, words)?;
    Ok(AskLine::Bind {
        name,
        service,
        version,
        id,
    })
}

// A START of FCLTU has one word, one of RAF or RCF has three.
fn read_start(alloc: Global, separator: u8, words: Option<&[u8]>) -> Result<AskLine, Unread>
    ensures { Gives (λ asked. asked) result
        (ask_reading AskForm.Start (parts_behind separator words.entry)) }
{
    match Last::<Any32>::read(alloc, separator, words) {
        Ok(first) => Ok(AskLine::StartCltu { first }),
        Err(Unread::Bad) => read_frames(alloc, separator, words),
        Err(Unread::Memory) => Err(Unread::Memory),
    }
}

fn read_frames(alloc: Global, separator: u8, words: Option<&[u8]>) -> Result<AskLine, Unread>
    requires { cltu_start.read (parts_behind separator words) ≡ None }
    ensures { Gives (λ asked. asked) result
        (ask_reading AskForm.Start (parts_behind separator words.entry)) }
{
    let (start, (stop, wanted)) = StartFrames::read(alloc, separator, words)?;
    match wanted {
        Wanted::OfChannel(channel) => Ok(AskLine::StartRcf {
            start,
            stop,
            channel,
        }),
        Wanted::OfQuality(quality) => Ok(AskLine::StartRaf {
            start,
            stop,
            quality,
        }),
    }
}

fn read_cltu(alloc: Global, separator: u8, words: Option<&[u8]>) -> Result<AskLine, Unread>
    ensures { Gives (λ asked. asked) result
        (ask_reading AskForm.Cltu (parts_behind separator words.entry)) }
{
    let (id, (earliest, (latest, (radiation_delay, (wanted, octets))))) = Cltu::read(
        alloc, separator, words,
    )?;
    Ok(AskLine::Cltu {
        id,
        earliest,
        latest,
        radiation_delay,
        wanted,
        octets,
    })
}
