// Lines of a transcript as text.
ghost use Rattle.std.specs.Prelude.{◌≡◌, ◌++◌, ◌∷◌, [], codes, OnOk, OnErr};
ghost use Rattle.std.specs.Fmt.{decimal};
ghost use Rattle.hex.specs.Hex.{encode_lower};
ghost use Rattle.words.specs.Parts.{behind, joined_by};
ghost use Rattle.drill_text.specs.Texts.{end_words, words_of};
ghost use Rattle.drill_text.specs.Transcript.{text_of};

use crate::end_put::put_end;
use crate::end_word::EndWord;
use crate::transcript_line::TranscriptLine;
use octet_core::{Memory, Octets};
use record_form::laws;
use std::alloc::{AllocError, Global};
use words::{Last, LentOctets, Long, Number, Then, WriteWords};

/// Appends a line of a transcript and its end, the octet 0A. Its HEX is in lower case. Where no
/// octets are lent, an empty word stands in their place, which no line of the grammar has.
#[tactic(auto, using(crate::proofs::Transcripts::text_is))]
pub fn write_line(alloc: Global, line: &TranscriptLine<'_>, into: &mut Octets) -> Result<(), Memory>
    ensures ok { OnOk result (into.new ≡ into.old ++ text_of line.now) }
    ensures err { OnErr result (into.new ≡ into.old) }
{
    let mut text = Vec::new(alloc);
    append_line(line, &mut text)?;
    text.push(b'\n')?;
    append_text(alloc, text, into)
}

// Appends a text. It isn't copied where nothing was there.
fn append_text(alloc: Global, text: Vec<u8>, into: &mut Octets) -> Result<(), Memory>
    ensures ok { OnOk result (into.new ≡ into.old ++ text.items) }
    ensures err { OnErr result (into.new ≡ into.old) }
{
    if into.is_empty() {
        *into = Octets::from_vec(alloc, text)?;
        return Ok(());
    }
    into.append(text.as_slice())
}

type Count = Number<0, 4_294_967_295>;

type Any = Long<0, 18_446_744_073_709_551_615>;

// Appends the canonical line, without its end.
fn append_line(line: &TranscriptLine<'_>, into: &mut Vec<u8>) -> Result<(), AllocError>
    ensures { OnOk result (into.new.items ≡ into.old.items ++ joined_by 32 (words_of line.now)) }
{
    match line {
        TranscriptLine::Sent { c, octets } => append_octets(SENT, *c, octets, into),
        TranscriptLine::Stalled { c } => append_count(STALLED, *c, into),
        TranscriptLine::Discarded { c, n } => append_counts(DISCARDED, *c, *n, into),
        TranscriptLine::Ended { c, word } => append_end(*c, word, into),
        TranscriptLine::Backward => into.extend_from_slice(BACKWARD),
        TranscriptLine::TooLong => into.extend_from_slice(TOO_LONG),
        TranscriptLine::Full { need, free } => append_full(*need, *free, into),
        TranscriptLine::Fault => into.extend_from_slice(FAULT),
        TranscriptLine::Crash => into.extend_from_slice(CRASH),
        TranscriptLine::Archive { entries } => append_archive(*entries, into),
        TranscriptLine::Radiated { id, octets } => append_octets(RADIATED, *id, octets, into),
        TranscriptLine::Expired { id } => append_count(EXPIRED, *id, into),
        TranscriptLine::Waits => into.extend_from_slice(WAITS),
        TranscriptLine::Idle => into.extend_from_slice(IDLE),
        TranscriptLine::Failed { id } => append_count(FAILED, *id, into),
        TranscriptLine::Refused => into.extend_from_slice(REFUSED),
    }
}

// Appends a first word and a number.
fn append_count(word: &[u8], n: u32, into: &mut Vec<u8>) -> Result<(), AllocError>
    ensures { OnOk result (into.new.items ≡ into.old.items
        ++ (word.now ++ behind 32 (decimal n ∷ []))) }
{
    into.extend_from_slice(word)?;
    Last::<Count>::put(b' ', &n, into)
}

// Appends a first word and two numbers.
fn append_counts(word: &[u8], m: u32, n: u32, into: &mut Vec<u8>) -> Result<(), AllocError>
    ensures { OnOk result (into.new.items ≡ into.old.items
        ++ (word.now ++ behind 32 (decimal m ∷ decimal n ∷ []))) }
{
    into.extend_from_slice(word)?;
    Then::<Count, Last<Count>>::put(b' ', (&m, &n), into)
}

// Appends how a connection ended.
fn append_end(c: u32, word: &EndWord, into: &mut Vec<u8>) -> Result<(), AllocError>
    ensures { OnOk result (into.new.items ≡ into.old.items
        ++ (codes "ended" ++ behind 32 (decimal c ∷ end_words word.now))) }
{
    append_count(ENDED, c, into)?;
    put_end(b' ', word, into)
}

// Appends what an entry needs and what is free.
fn append_full(need: u64, free: u64, into: &mut Vec<u8>) -> Result<(), AllocError>
    ensures { OnOk result (into.new.items ≡ into.old.items
        ++ (codes "full" ++ behind 32 (decimal need ∷ decimal free ∷ []))) }
{
    into.extend_from_slice(FULL)?;
    Then::<Any, Last<Any>>::put(b' ', (&need, &free), into)
}

// Appends how many entries there are.
fn append_archive(entries: u64, into: &mut Vec<u8>) -> Result<(), AllocError>
    ensures { OnOk result (into.new.items ≡ into.old.items
        ++ (codes "archive" ++ behind 32 (decimal entries ∷ []))) }
{
    into.extend_from_slice(ARCHIVE)?;
    Last::<Any>::put(b' ', &entries, into)
}

// Appends a first word, a number and octets.
fn append_octets(word: &[u8], n: u32, octets: &[u8], into: &mut Vec<u8>) -> Result<(), AllocError>
    ensures { OnOk result (into.new.items ≡ into.old.items
        ++ (word.now ++ behind 32 (decimal n ∷ encode_lower octets.now ∷ []))) }
{
    append_count(word, n, into)?;
    put_octets(octets, into)
}

// Appends octets behind a blank.
fn put_octets(octets: &[u8], into: &mut Vec<u8>) -> Result<(), AllocError>
    ensures { OnOk result (into.new.items ≡ into.old.items
        ++ behind 32 (encode_lower octets.now ∷ [])) }
{
    laws::slice(octets);
    LentOctets::put(b' ', octets, into)
}

const SENT: &[u8] = b"sent";

const STALLED: &[u8] = b"stalled";

const DISCARDED: &[u8] = b"discarded";

const ENDED: &[u8] = b"ended";

const BACKWARD: &[u8] = b"backward";

const TOO_LONG: &[u8] = b"too long";

const FULL: &[u8] = b"full";

const FAULT: &[u8] = b"fault";

const CRASH: &[u8] = b"crash";

const ARCHIVE: &[u8] = b"archive";

const RADIATED: &[u8] = b"radiated";

const EXPIRED: &[u8] = b"expired";

const WAITS: &[u8] = b"waits";

const IDLE: &[u8] = b"idle";

const FAILED: &[u8] = b"failed";

const REFUSED: &[u8] = b"refused 3";
