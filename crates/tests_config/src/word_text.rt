// What words, lines and rows of words are read as, as a text.
ghost use Rattle.std.specs.Prelude.{codes};

use sle_common::InstanceId;
use std::alloc::{AllocError, Global};
use std::str;
use words::{
    Fixed, FixedText, Last, Many, Maybe, Nothing, Octet, Then, Time, Unread, Word, Words,
    WriteWords, read_line, read_row, read_word, write_line,
};

// What was written again: nothing where it is as it was read.
fn otherwise(alloc: Global, text: &[u8], back: &[u8]) -> Result<String, AllocError> {
    let told = if back == text {
        ""
    } else {
        str::from_utf8(back).unwrap_or("no text")
    };
    String::from_str(alloc, told)
}

fn written_again<W: Word>(
    alloc: Global,
    word: &[u8],
    value: &W::Value,
) -> Result<String, AllocError>
    requires { W.kind.Fits (W.seen value.now) }
{
    let mut written = Vec::new(alloc);
    W::write(value, &mut written)?;
    otherwise(alloc, word, &written)
}

/// Of a word: nothing where it is its value's canonical spelling, else that spelling, or `bad`.
pub fn word_text<W: Word>(alloc: Global, word: &[u8]) -> Result<String, AllocError> {
    match read_word::<W>(alloc, word) {
        Ok(value) => written_again::<W>(alloc, word, &value),
        Err(Unread::Bad) => String::from_str(alloc, "bad"),
        Err(Unread::Memory) => Err(AllocError),
    }
}

fn id_written(alloc: Global, text: &[u8], id: &InstanceId) -> Result<String, AllocError> {
    otherwise(alloc, text, format!(in alloc; "{id}")?.as_bytes())
}

/// Of the text of a service instance identifier: nothing where it is written as it was read.
pub fn instance_text(alloc: Global, text: &[u8]) -> Result<String, AllocError> {
    match InstanceId::parse_text(alloc, str::from_utf8(text).unwrap_or("no text")) {
        Ok(id) => id_written(alloc, text, &id),
        Err(fault) => format!(in alloc; "{fault}"),
    }
}

fn parts_of(alloc: Global, id: &InstanceId) -> Result<String, AllocError> {
    let mut told = String::new(alloc);
    for part in id.parts() {
        let value = str::from_utf8(part.value.as_slice()).unwrap_or("no text");
        told.push_str(format!(in alloc; "{:?} {value} ", part.attribute)?.as_str())?;
    }
    Ok(told)
}

/// The attributes and values of such a text.
pub fn parts_text(alloc: Global, text: &[u8]) -> Result<String, AllocError> {
    match InstanceId::parse_text(alloc, str::from_utf8(text).unwrap_or("no text")) {
        Ok(id) => parts_of(alloc, &id),
        Err(fault) => format!(in alloc; "{fault}"),
    }
}

/// The first word of a line.
pub struct Mark;

impl FixedText for Mark {
    ghost TEXT = { codes "mark" };

    fn text() -> &'static [u8] {
        b"mark"
    }
}

/// A line `mark`.
pub type Plain = Then<Fixed<Mark>, Nothing>;

/// What stands behind a first word: a time and a number.
pub type Two = Then<Time, Last<Octet<0, 2>>>;

/// A line `mark TIME`.
pub type At = Then<Fixed<Mark>, Last<Time>>;

/// A line `mark TIME N`.
pub type Counted = Then<Fixed<Mark>, Two>;

// A line `mark` again.
fn plain_again(alloc: Global, line: &[u8]) -> Result<String, AllocError> {
    let mut written = Vec::new(alloc);
    write_line::<Fixed<Mark>, Nothing>(&(), (), &mut written)?;
    otherwise(alloc, line, &written)
}

/// Of a line `mark`, as of a word.
pub fn plain_line(alloc: Global, line: &[u8]) -> Result<String, AllocError> {
    match read_line::<Plain>(alloc, line) {
        Ok(_) => plain_again(alloc, line),
        Err(_) => String::from_str(alloc, "bad"),
    }
}

/// Of a line `mark TIME N`, as of a word.
pub fn counted_line(alloc: Global, line: &[u8]) -> Result<String, AllocError> {
    let Ok(((), (at, number))) = read_line::<Counted>(alloc, line) else {
        return String::from_str(alloc, "bad");
    };
    let mut written = Vec::new(alloc);
    write_line::<Fixed<Mark>, Two>(&(), (&at, &number), &mut written)?;
    otherwise(alloc, line, &written)
}

// The words behind the first blank, if there is one.
fn behind_blank(text: &[u8]) -> Option<&[u8]> {
    let (_, words) = text.split_first()?;
    Some(words)
}

/// Why words, each behind a blank, aren't of a row; nothing where they are.
pub fn row_fault<R: Words>(alloc: Global, text: &[u8]) -> Result<String, AllocError> {
    match read_row::<R>(alloc, behind_blank(text)) {
        Ok(_) => Ok(String::new(alloc)),
        Err(fault) => format!(in alloc; "{fault}"),
    }
}

/// A row of one word at most.
pub type AtMost = Maybe<Fixed<Mark>>;

fn at_most_again(alloc: Global, text: &[u8], value: &Option<()>) -> Result<String, AllocError> {
    let mut written = Vec::new(alloc);
    AtMost::put(b' ', value, &mut written)?;
    otherwise(alloc, text, &written)
}

/// Of such a row: as of a word, but with the fault's words.
pub fn at_most_row(alloc: Global, text: &[u8]) -> Result<String, AllocError> {
    match read_row::<AtMost>(alloc, behind_blank(text)) {
        Ok(value) => at_most_again(alloc, text, &value),
        Err(fault) => format!(in alloc; "{fault}"),
    }
}

/// One to four numbers.
pub type Versions = Many<Octet<4, 9>, 1, 4>;
