// A row is a text up to `|`; what it is read as stands behind ` = `, where a row has that. A row
// begins behind the line end before it. `%N*X%` stands for N times X.
use crate::kind::{Kind, told};
use std::alloc::{AllocError, Global};

// A part of a text between two `%`: how often it stands there, and what.
fn repeated(part: &str) -> (usize, &str) {
    match part.split_once('*') {
        Some((count, word)) => match count.parse() {
            Ok(count) => (count, word),
            Err(_) => (1, part),
        },
        None => (1, part),
    }
}

fn spelled(alloc: Global, text: &str) -> Result<String, AllocError> {
    let mut spelled = String::new(alloc);
    for part in text.split('%') {
        let (count, part) = repeated(part);
        for _ in 0..count {
            spelled.push_str(part)?;
        }
    }
    Ok(spelled)
}

// Whether what a text is read as has these words.
fn is_read_so(alloc: Global, kind: Kind, text: &str, value: &str) -> Result<bool, AllocError> {
    let text = spelled(alloc, text)?;
    let told = told(alloc, kind, text.as_bytes())?;
    Ok(told.split_whitespace().eq(value.split_whitespace()))
}

/// The first row that isn't so.
pub fn wrong_row<'a>(
    alloc: Global,
    kind: Kind,
    rows: &'a str,
) -> Result<Option<&'a str>, AllocError> {
    for row in rows.split_terminator('|') {
        let row = row.strip_prefix('\n').unwrap_or(row);
        let (text, value) = row.rsplit_once(" = ").unwrap_or((row, ""));
        if !is_read_so(alloc, kind, text, value)? {
            return Ok(Some(row));
        }
    }
    Ok(None)
}
