// Lines of a script by their words.
#![tactic(auto, unfolding(crate::specs::Reading::form_reading))]

ghost use Rattle.std.specs.Prelude.{◌≡◌, IfOk, IsErrOf, None, false};
ghost use Rattle.words.specs.Parts.{parts};
ghost use Rattle.words.specs.Reading.{Gives, parts_behind};
ghost use Rattle.drill_text.specs.Reading.{Fits, HasValidEntry, IsUnknown, Reads};
ghost use Rattle.drill_text.specs.Reading.{first_form, form_reading, reading};
ghost use Rattle.drill_text.specs.Script.{is_skipped};

use crate::fail_row::FailRow;
use crate::line_fault::LineFault;
use crate::rows::{
    Ask, Crash, Fault, Frame, Loss, Mark, OfConnection, Piece, Production, Repeated, Start, Uplink,
};
use crate::script_form::ScriptForm;
use crate::script_line::ScriptLine;
use record_form::Entry;
use std::alloc::Global;
use words::{Listed, Nothing, Unread, Words, split_part};

/// What a line of a script says, its end left away. A line whose first word is no form's is refused
/// as such, and not for want of memory: none is taken for it.
#[tactic(auto, using(crate::proofs::Entries::reads_fit, crate::proofs::Entries::reads_valid))]
pub fn parse_line(alloc: Global, line: &[u8]) -> Result<ScriptLine, LineFault>
    ensures exact { Reads result (reading line.now) }
    ensures fits { IfOk result Fits }
    ensures valid { IfOk result HasValidEntry }
    ensures unknown { IsUnknown line.now → IsErrOf result LineFault.Bad }
{
    read_text(alloc, line)
}

fn read_text(alloc: Global, line: &[u8]) -> Result<ScriptLine, LineFault>
    ensures exact { Reads result (reading line.now) }
    ensures unknown { IsUnknown line.now → IsErrOf result LineFault.Bad }
{
    if is_skipped(line) {
        return Ok(ScriptLine::Skip);
    }
    Ok(read_words(alloc, line)?)
}

fn read_words(alloc: Global, line: &[u8]) -> Result<ScriptLine, Unread>
    requires { is_skipped line.now ≡ false }
    ensures exact { Gives (λ says. says) result (reading line.now) }
    ensures unknown { (first_form (parts 32 line.now) ≡ None) → IsErrOf result Unread.Bad }
{
    let (word, words) = split_part(b' ', line);
    let form = ScriptForm::from_word(word).ok_or(Unread::Bad)?;
    read_form(alloc, form, words)
}

const COMMENT: u8 = b'#';

fn is_skipped(line: &[u8]) -> bool
    ensures { result ≡ is_skipped line.now }
{
    match line {
        [] => true,
        [first, ..] => *first == COMMENT,
    }
}

// What the words behind a form's word say.
#[tactic(auto)]
fn read_form(alloc: Global, form: ScriptForm, words: Option<&[u8]>) -> Result<ScriptLine, Unread>
    ensures { Gives (λ says. says) result (form_reading form (parts_behind 32 words.entry)) }
{
    match form {
        ScriptForm::Frame => read_frame(alloc, words),
        ScriptForm::Loss => read_loss(alloc, words),
        ScriptForm::Production => read_production(alloc, words),
        ScriptForm::Mark => read_mark(alloc, words),
        ScriptForm::Start => read_start(alloc, words),
        ScriptForm::Clock => read_clock(alloc, words),
        ScriptForm::Open => read_open(alloc, words),
        ScriptForm::In => read_piece(alloc, words),
        ScriptForm::Ask => read_ask(alloc, words),
        ScriptForm::Shut => read_shut(alloc, words),
        ScriptForm::Break => read_break(alloc, words),
        ScriptForm::Round => read_round(alloc, words),
        ScriptForm::Stall => read_stall(alloc, words),
        ScriptForm::Take => read_take(alloc, words),
        ScriptForm::Done => read_done(alloc, words),
        ScriptForm::Uplink => read_uplink(alloc, words),
        ScriptForm::Crash => read_crash(alloc, words),
        ScriptForm::Fault => read_fault(alloc, words),
    }
}

fn read_frame(alloc: Global, words: Option<&[u8]>) -> Result<ScriptLine, Unread>
    ensures { Gives (λ says. says) result
        (form_reading ScriptForm.Frame (parts_behind 32 words.entry)) }
{
    let (ert, (quality, (antenna, (lost, octets)))) = Frame::read(alloc, b' ', words)?;
    Ok(ScriptLine::Offer(Entry::Frame {
        ert,
        quality,
        antenna,
        lost,
        octets,
    }))
}

fn read_loss(alloc: Global, words: Option<&[u8]>) -> Result<ScriptLine, Unread>
    ensures { Gives (λ says. says) result
        (form_reading ScriptForm.Loss (parts_behind 32 words.entry)) }
{
    let (at, (carrier, (subcarrier, symbol))) = Loss::read(alloc, b' ', words)?;
    Ok(ScriptLine::Offer(Entry::LossOfSync {
        at,
        carrier,
        subcarrier,
        symbol,
    }))
}

fn read_production(alloc: Global, words: Option<&[u8]>) -> Result<ScriptLine, Unread>
    ensures { Gives (λ says. says) result
        (form_reading ScriptForm.Production (parts_behind 32 words.entry)) }
{
    let status = Production::read(alloc, b' ', words)?;
    Ok(ScriptLine::Offer(Entry::Production { status }))
}

fn read_mark(alloc: Global, words: Option<&[u8]>) -> Result<ScriptLine, Unread>
    ensures { Gives (λ says. says) result
        (form_reading ScriptForm.Mark (parts_behind 32 words.entry)) }
{
    let at = Mark::read(alloc, b' ', words)?;
    Ok(ScriptLine::Offer(Entry::Seal { at }))
}

fn read_start(alloc: Global, words: Option<&[u8]>) -> Result<ScriptLine, Unread>
    ensures { Gives (λ says. says) result
        (form_reading ScriptForm.Start (parts_behind 32 words.entry)) }
{
    let (start, (stop, quality)) = Start::read(alloc, b' ', words)?;
    Ok(ScriptLine::Desk {
        start,
        stop,
        quality,
    })
}

fn read_clock(alloc: Global, words: Option<&[u8]>) -> Result<ScriptLine, Unread>
    ensures { Gives (λ says. says) result
        (form_reading ScriptForm.Clock (parts_behind 32 words.entry)) }
{
    let at = Mark::read(alloc, b' ', words)?;
    Ok(ScriptLine::Clock(at))
}

fn read_open(alloc: Global, words: Option<&[u8]>) -> Result<ScriptLine, Unread>
    ensures { Gives (λ says. says) result
        (form_reading ScriptForm.Open (parts_behind 32 words.entry)) }
{
    let c = OfConnection::read(alloc, b' ', words)?;
    Ok(ScriptLine::Open { c })
}

fn read_piece(alloc: Global, words: Option<&[u8]>) -> Result<ScriptLine, Unread>
    ensures { Gives (λ says. says) result
        (form_reading ScriptForm.In (parts_behind 32 words.entry)) }
{
    let (c, octets) = Piece::read(alloc, b' ', words)?;
    Ok(ScriptLine::Piece { c, octets })
}

fn read_ask(alloc: Global, words: Option<&[u8]>) -> Result<ScriptLine, Unread>
    ensures { Gives (λ says. says) result
        (form_reading ScriptForm.Ask (parts_behind 32 words.entry)) }
{
    let (c, ask) = Ask::read(alloc, b' ', words)?;
    Ok(ScriptLine::Ask { c, ask })
}

fn read_shut(alloc: Global, words: Option<&[u8]>) -> Result<ScriptLine, Unread>
    ensures { Gives (λ says. says) result
        (form_reading ScriptForm.Shut (parts_behind 32 words.entry)) }
{
    let c = OfConnection::read(alloc, b' ', words)?;
    Ok(ScriptLine::Shut { c })
}

fn read_break(alloc: Global, words: Option<&[u8]>) -> Result<ScriptLine, Unread>
    ensures { Gives (λ says. says) result
        (form_reading ScriptForm.Break (parts_behind 32 words.entry)) }
{
    let c = OfConnection::read(alloc, b' ', words)?;
    Ok(ScriptLine::Break { c })
}

fn read_round(alloc: Global, words: Option<&[u8]>) -> Result<ScriptLine, Unread>
    ensures { Gives (λ says. says) result
        (form_reading ScriptForm.Round (parts_behind 32 words.entry)) }
{
    let (c, n) = Repeated::read(alloc, b' ', words)?;
    Ok(ScriptLine::Round { c, n })
}

fn read_stall(alloc: Global, words: Option<&[u8]>) -> Result<ScriptLine, Unread>
    ensures { Gives (λ says. says) result
        (form_reading ScriptForm.Stall (parts_behind 32 words.entry)) }
{
    let (c, n) = Repeated::read(alloc, b' ', words)?;
    Ok(ScriptLine::Stall { c, n })
}

fn read_take(alloc: Global, words: Option<&[u8]>) -> Result<ScriptLine, Unread>
    ensures { Gives (λ says. says) result
        (form_reading ScriptForm.Take (parts_behind 32 words.entry)) }
{
    let fail = FailRow::read(alloc, b' ', words)?;
    Ok(ScriptLine::Take { fail })
}

fn read_done(alloc: Global, words: Option<&[u8]>) -> Result<ScriptLine, Unread>
    ensures { Gives (λ says. says) result
        (form_reading ScriptForm.Done (parts_behind 32 words.entry)) }
{
    Nothing::read(alloc, b' ', words)?;
    Ok(ScriptLine::Done)
}

fn read_uplink(alloc: Global, words: Option<&[u8]>) -> Result<ScriptLine, Unread>
    ensures { Gives (λ says. says) result
        (form_reading ScriptForm.Uplink (parts_behind 32 words.entry)) }
{
    let (production, status) = Uplink::read(alloc, b' ', words)?;
    Ok(ScriptLine::Uplink { production, status })
}

fn read_crash(alloc: Global, words: Option<&[u8]>) -> Result<ScriptLine, Unread>
    ensures { Gives (λ says. says) result
        (form_reading ScriptForm.Crash (parts_behind 32 words.entry)) }
{
    let (k, pick) = Crash::read(alloc, b' ', words)?;
    Ok(ScriptLine::Crash { k, pick })
}

fn read_fault(alloc: Global, words: Option<&[u8]>) -> Result<ScriptLine, Unread>
    ensures { Gives (λ says. says) result
        (form_reading ScriptForm.Fault (parts_behind 32 words.entry)) }
{
    let k = Fault::read(alloc, b' ', words)?;
    Ok(ScriptLine::Fault { k })
}
