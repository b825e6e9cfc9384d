// A row is octets in words of hexadecimal digits, `=`, and what they are decoded as; `;` ends it.
// A word behind a number and `*` stands for as many.
use crate::kind::{Kind, told};
use std::alloc::{AllocError, Global};
use std::process::Abort;
use std::test::Fail;

// The words of a text, each with what is put behind it.
fn spelled_out(alloc: Global, text: &str, behind: &str) -> Result<String, AllocError> {
    let mut all = String::new(alloc);
    for word in text.split_whitespace() {
        let (count, word) = match word.split_once('*') {
            Some((count, word)) => (count.parse().unwrap_or(0), word),
            None => (1, word),
        };
        for _ in 0..count {
            all.push_str(word)?;
            all.push_str(behind)?;
        }
    }
    Ok(all)
}

// The octets of words.
fn octets_of(alloc: Global, words: &str) -> Result<Vec<u8>, Fail> {
    Ok(hex::decode(alloc, spelled_out(alloc, words, "")?.as_str())?)
}

// The first row that isn't so.
fn wrong_row<'a>(alloc: Global, kind: Kind, rows: &'a str) -> Result<Option<&'a str>, Fail> {
    for row in rows.split_terminator(';') {
        let (octets, value) = row.split_once('=').unwrap_or((row, ""));
        let octets = octets_of(alloc, octets)?;
        let value = spelled_out(alloc, value, " ")?;
        if told(alloc, kind, &octets)?.as_str() != value.as_str() {
            return Ok(Some(row));
        }
    }
    Ok(None)
}

/// Each row is so.
pub fn check(rt: &impl Abort, alloc: Global, kind: Kind, rows: &str) -> Result<(), Fail> {
    assert_eq!(rt; wrong_row(alloc, kind, rows)?, None);
    Ok(())
}
