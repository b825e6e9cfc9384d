// What is told of a user, as a text: the octets that it offered, in hexadecimal digits, then each
// line that it printed, and its status where it ended.
use crate::messages::octets_of;
use link_model::{Call, MemoryLink};
use std::alloc::{AllocError, Global};
use std::fmt::Write;
use std::str;
use std::test::Fail;
use user_core::Status;

// Appends words, one blank apart, and the line's end.
fn put_line(line: &str, text: &mut String) -> Result<(), AllocError> {
    let mut first = true;
    for word in line.split_whitespace() {
        if !first {
            text.push(' ')?;
        }
        first = false;
        text.push_str(word)?;
    }
    text.push('\n')
}

/// The text of messages and, behind a `|` each, of lines and the status.
pub fn text_of(alloc: Global, words: &str) -> Result<String, Fail> {
    let (offered, lines) = words.split_once('|').unwrap_or((words, ""));
    let octets = octets_of(alloc, offered)?;
    let mut text = hex::encode(alloc, octets.as_slice())?;
    text.push('\n')?;
    for line in lines.split_terminator('|') {
        put_line(line, &mut text)?;
    }
    Ok(text)
}

// Appends the octets that a call offered.
fn put_call(alloc: Global, call: &Call, text: &mut String) -> Result<(), AllocError> {
    match call {
        Call::Offered { octets, .. } => {
            let digits = hex::encode(alloc, octets.as_slice())?;
            text.push_str(digits.as_str())
        }
        _ => Ok(()),
    }
}

/// Appends the octets that calls of a link offered, and a line's end.
pub fn put_calls(
    alloc: Global,
    calls: Option<Vec<Call>>,
    text: &mut String,
) -> Result<(), AllocError> {
    let Some(calls) = calls else {
        return Err(AllocError);
    };
    for call in &calls {
        put_call(alloc, call, text)?;
    }
    text.push('\n')
}

/// Appends how a user ended, once it has.
pub fn put_status(status: Option<Status>, text: &mut String) -> Result<(), AllocError> {
    match status {
        Some(status) => write!(text, "{status:?}\n"),
        None => Ok(()),
    }
}
