// A row is a text up to `|`, and behind ` = ` what is told of it. In octets a word behind a number
// and `*` stands for as many of it.
use crate::kind::{Kind, tell};
use std::alloc::{AllocError, Global};

// A word, and how often it stands there.
fn repeated(word: &str) -> (usize, &str) {
    match word.split_once('*') {
        Some((count, word)) => (count.parse().unwrap_or(0), word),
        None => (1, word),
    }
}

/// The octets of words of hexadecimal digits.
pub fn octets_of(alloc: Global, words: &str) -> Result<Vec<u8>, AllocError> {
    let mut digits = String::new(alloc);
    for word in words.split_whitespace() {
        let (count, word) = repeated(word);
        for _ in 0..count {
            digits.push_str(word)?;
        }
    }
    match hex::decode(alloc, digits.as_str()) {
        Ok(octets) => Ok(octets),
        Err(_) => Err(AllocError),
    }
}

/// The first word of a text, and what stands behind it.
pub fn first_of(text: &str) -> (&str, &str) {
    let text = text.trim_start();
    let word = text.split_whitespace().next().unwrap_or("");
    (word, text.strip_prefix(word).unwrap_or(""))
}

// Whether what is told of a text has these words.
fn is_told(alloc: Global, kind: Kind, text: &str, words: &str) -> Result<bool, AllocError> {
    let mut told = String::new(alloc);
    tell(alloc, kind, text, &mut told)?;
    Ok(told.split_whitespace().eq(words.split_whitespace()))
}

/// The first row that isn't so.
pub fn wrong_row<'a>(
    alloc: Global,
    kind: Kind,
    rows: &'a str,
) -> Result<Option<&'a str>, AllocError> {
    for row in rows.split_terminator('|') {
        let (text, words) = row.split_once(" = ").unwrap_or((row, ""));
        if !is_told(alloc, kind, text, words)? {
            return Ok(Some(row));
        }
    }
    Ok(None)
}
