// A row is messages with a comma between two, `=`, and their lines with `|` behind each; `;` ends
// it. A message is a PDU's octets in words of hexadecimal digits, or with `!` before them the
// octets as they came.
use isp1_tml::{LONGEST_PDU, Messages, head};
use octet_core::MemorySink;
use sle_numbers::ServiceType;
use std::alloc::{AllocError, Global};
use std::process::Abort;
use std::test::Fail;
use user_lines::put_lines;

// The octets of words of hexadecimal digits.
fn octets_of(alloc: Global, words: &str) -> Result<Vec<u8>, Fail> {
    let mut digits = String::new(alloc);
    for word in words.split_whitespace() {
        digits.push_str(word)?;
    }
    Ok(hex::decode(alloc, digits.as_str())?)
}

// Appends the octets of a message.
fn put_message(alloc: Global, message: &str, stream: &mut Vec<u8>) -> Result<(), Fail> {
    if let Some(octets) = message.trim().strip_prefix('!') {
        stream.extend_from_slice(octets_of(alloc, octets)?.as_slice())?;
        return Ok(());
    }
    let pdu = octets_of(alloc, message)?;
    let length = pdu.len().min(LONGEST_PDU as usize) as u32;
    stream.extend_from_slice(&head(1, length))?;
    stream.extend_from_slice(pdu.as_slice())?;
    Ok(())
}

/// The octets of messages.
pub fn stream_of(alloc: Global, messages: &str) -> Result<Vec<u8>, Fail> {
    let mut stream = Vec::new(alloc);
    for message in messages.split(',') {
        put_message(alloc, message, &mut stream)?;
    }
    Ok(stream)
}

// Appends words, one blank apart, and the line's end.
fn put_line(line: &str, lines: &mut String) -> Result<(), AllocError> {
    let mut first = true;
    for word in line.split_whitespace() {
        if !first {
            lines.push(' ')?;
        }
        first = false;
        lines.push_str(word)?;
    }
    lines.push('\n')
}

/// The lines of a row.
pub fn lines_of(alloc: Global, row: &str) -> Result<String, AllocError> {
    let mut lines = String::new(alloc);
    for line in row.trim().split_terminator('|') {
        put_line(line, &mut lines)?;
    }
    Ok(lines)
}

// What is printed of a stream that came whole.
fn printed(alloc: Global, service: ServiceType, stream: &[u8]) -> Result<MemorySink, Fail> {
    let mut sink = MemorySink::new(alloc, Vec::new(alloc));
    let mut messages = Messages::new(stream, 0);
    put_lines(alloc, service, &mut messages, &mut sink)?;
    Ok(sink)
}

// The first row that isn't so.
fn wrong_row<'a>(
    alloc: Global,
    service: ServiceType,
    rows: &'a str,
) -> Result<Option<&'a str>, Fail> {
    for row in rows.split_terminator(';') {
        let (messages, lines) = row.split_once('=').unwrap_or((row, ""));
        let stream = stream_of(alloc, messages)?;
        let lines = lines_of(alloc, lines)?;
        let sink = printed(alloc, service, stream.as_slice())?;
        if sink.written() != lines.as_bytes() {
            return Ok(Some(row));
        }
    }
    Ok(None)
}

/// Each row is so.
pub fn check(rt: &impl Abort, alloc: Global, service: ServiceType, rows: &str) -> Result<(), Fail> {
    assert_eq!(rt; wrong_row(alloc, service, rows)?, None);
    Ok(())
}
