// How a connection ended, as words.
#![tactic(auto, unfolding(crate::specs::Transcribed::end_reading))]

ghost use Rattle.std.specs.Prelude.{◌≡◌};
ghost use Rattle.std.specs.Option.{option_map};
ghost use Rattle.drill_text.specs.Ends.{end_word, all_ends};
ghost use Rattle.drill_text.specs.Ends as end;
ghost use Rattle.words.specs.Listed.{value_of};
ghost use Rattle.words.specs.Reading.{Gives, parts_behind};
ghost use Rattle.explain_lines.specs.Transcribed.{end_form_of, end_reading};

use drill_text::EndWord;
use std::alloc::Global;
use words::{Last, Nothing, Octet, Unread, Words, split_part};

/// How a connection ended.
pub struct EndRow;

impl Words for EndRow {
    ghost use Rattle.drill_text.specs.Ends.{end};
    ghost use Rattle.drill_text.specs.declared.end_word.EndWord.{EndWord};

    type Value = EndWord;

    ghost Seen = { EndWord };

    ghost kinds = { end };

    ghost seen = { λ word. word };

    fn read(alloc: Global, separator: u8, words: Option<&[u8]>) -> Result<EndWord, Unread> {
        let (word, behind) = split_part(separator, words.ok_or(Unread::Bad)?);
        let form = EndForm::from_word(word).ok_or(Unread::Bad)?;
        read_form(alloc, form, separator, behind)
    }

    fn takes(count: usize) -> bool {
        count >= 1 && count <= 2
    }
}

// A form of an end, by its first word.
#[derive(Clone, Copy, Debug, PartialEq, Eq)]
pub enum EndForm {
    Unbound,
    Closed,
    Denied,
    Range,
    Broken,
    Aborted,
    PeerAborted,
    Fault,
}

impl EndForm {
    // The form that has this word.
    fn from_word(word: &[u8]) -> Option<EndForm>
        ensures { option_map end_form_of result ≡ value_of end_word all_ends word.now }
    {
        if word == UNBOUND {
            Some(EndForm::Unbound)
        } else if word == CLOSED {
            Some(EndForm::Closed)
        } else if word == DENIED {
            Some(EndForm::Denied)
        } else if word == RANGE {
            Some(EndForm::Range)
        } else if word == BROKEN {
            Some(EndForm::Broken)
        } else if word == ABORTED {
            Some(EndForm::Aborted)
        } else if word == PEER_ABORTED {
            Some(EndForm::PeerAborted)
        } else if word == FAULT {
            Some(EndForm::Fault)
        } else {
            None
        }
    }
}

const UNBOUND: &[u8] = b"unbound";

const CLOSED: &[u8] = b"closed";

const DENIED: &[u8] = b"denied";

const RANGE: &[u8] = b"range";

const BROKEN: &[u8] = b"broken";

const ABORTED: &[u8] = b"aborted";

const PEER_ABORTED: &[u8] = b"peer-aborted";

const FAULT: &[u8] = b"fault";

#[tactic(auto)]
fn read_form(
    alloc: Global,
    form: EndForm,
    separator: u8,
    words: Option<&[u8]>,
) -> Result<EndWord, Unread>
    ensures { Gives (λ word. word) result
        (end_reading (end_form_of form) (parts_behind separator words.entry)) }
{
    match form {
        EndForm::Unbound => read_unbound(alloc, separator, words),
        EndForm::Closed => read_closed(alloc, separator, words),
        EndForm::Denied => read_denied(alloc, separator, words),
        EndForm::Range => read_range(alloc, separator, words),
        EndForm::Broken => read_broken(alloc, separator, words),
        EndForm::Aborted => read_aborted(alloc, separator, words),
        EndForm::PeerAborted => read_peer_aborted(alloc, separator, words),
        EndForm::Fault => read_fault(alloc, separator, words),
    }
}

fn read_unbound(alloc: Global, separator: u8, words: Option<&[u8]>) -> Result<EndWord, Unread>
    ensures { Gives (λ word. word) result
        (end_reading end.unbound (parts_behind separator words.entry)) }
{
    Nothing::read(alloc, separator, words)?;
    Ok(EndWord::Unbound)
}

fn read_closed(alloc: Global, separator: u8, words: Option<&[u8]>) -> Result<EndWord, Unread>
    ensures { Gives (λ word. word) result
        (end_reading end.closed (parts_behind separator words.entry)) }
{
    Nothing::read(alloc, separator, words)?;
    Ok(EndWord::Closed)
}

fn read_denied(alloc: Global, separator: u8, words: Option<&[u8]>) -> Result<EndWord, Unread>
    ensures { Gives (λ word. word) result
        (end_reading end.denied (parts_behind separator words.entry)) }
{
    Nothing::read(alloc, separator, words)?;
    Ok(EndWord::Denied)
}

fn read_range(alloc: Global, separator: u8, words: Option<&[u8]>) -> Result<EndWord, Unread>
    ensures { Gives (λ word. word) result
        (end_reading end.range (parts_behind separator words.entry)) }
{
    Nothing::read(alloc, separator, words)?;
    Ok(EndWord::Range)
}

fn read_fault(alloc: Global, separator: u8, words: Option<&[u8]>) -> Result<EndWord, Unread>
    ensures { Gives (λ word. word) result
        (end_reading end.fault (parts_behind separator words.entry)) }
{
    Nothing::read(alloc, separator, words)?;
    Ok(EndWord::Fault)
}

type Number = Last<Octet<0, 255>>;

fn read_broken(alloc: Global, separator: u8, words: Option<&[u8]>) -> Result<EndWord, Unread>
    ensures { Gives (λ word. word) result
        (end_reading end.broken (parts_behind separator words.entry)) }
{
    let number = Number::read(alloc, separator, words)?;
    Ok(EndWord::Broken(number))
}

fn read_aborted(alloc: Global, separator: u8, words: Option<&[u8]>) -> Result<EndWord, Unread>
    ensures { Gives (λ word. word) result
        (end_reading end.aborted (parts_behind separator words.entry)) }
{
    let number = Number::read(alloc, separator, words)?;
    Ok(EndWord::Aborted(number))
}

fn read_peer_aborted(alloc: Global, separator: u8, words: Option<&[u8]>) -> Result<EndWord, Unread>
    ensures { Gives (λ word. word) result
        (end_reading end.peer_aborted (parts_behind separator words.entry)) }
{
    let number = Number::read(alloc, separator, words)?;
    Ok(EndWord::PeerAborted(number))
}
