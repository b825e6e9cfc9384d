// Each line of the input, with what it says.

use crate::asked::Asked;
use crate::status::Status;
use crate::stream::put_stream_line;
use drill_text::{LineFault, ScriptLine, parse_line};
use explain_lines::{parse_stream, parse_transcript};
use explain_words::Text;
use line_meaning::{Ending, put_ending, put_entry, put_transcript_line};
use octet_core::{Sink, Source};
use sle_numbers::ServiceType;
use std::alloc::{AllocError, Global};
use words::Unread;

// The most octets that an input may have.
const MOST_OCTETS: usize = 67_108_864;

// How many octets of the input are asked for at once.
const PIECE_OCTETS: usize = 65_536;

/// Writes each line of the input, and what it says behind it.
pub fn explain<I: Source, O: Sink>(
    alloc: Global,
    asked: Asked,
    input: &mut I,
    output: &mut O,
) -> Status {
    match read_all(alloc, input) {
        Ok(lines) if lines.is_empty() => Status::Done,
        Ok(lines) => match write_all(alloc, asked, lines.as_slice(), output) {
            Ok(()) => Status::Done,
            Err(status) => status,
        },
        Err(status) => status,
    }
}

// The input to its end.
fn read_all<I: Source>(alloc: Global, input: &mut I) -> Result<Vec<u8>, Status> {
    let mut octets = Vec::new(alloc);
    let mut piece = [0u8; PIECE_OCTETS];
    // (each piece has an octet at least)
    for _ in 0..=MOST_OCTETS {
        let Ok(count) = input.take(&mut piece) else {
            return Err(Status::ReadFault);
        };
        if count == 0 {
            return Ok(octets);
        }
        octets.extend_from_slice(&piece[..count.min(PIECE_OCTETS)])?;
        if octets.len() > MOST_OCTETS {
            return Err(Status::TooLong);
        }
    }
    Err(Status::TooLong)
}

fn write_all<O: Sink>(
    alloc: Global,
    asked: Asked,
    lines: &[u8],
    output: &mut O,
) -> Result<(), Status> {
    let mut text = Text::new(alloc);
    for line in lines_of(lines).split(|octet| *octet == b'\n') {
        write_line(alloc, asked, line, &mut text, output)?;
    }
    Ok(())
}

// The lines without the end of the last one.
fn lines_of(text: &[u8]) -> &[u8] {
    match text.split_last() {
        Some((last, front)) if *last == b'\n' => front,
        _ => text,
    }
}

fn write_line<O: Sink>(
    alloc: Global,
    asked: Asked,
    line: &[u8],
    text: &mut Text,
    output: &mut O,
) -> Result<(), Status> {
    text.clear();
    text.put_octets(line);
    text.end();
    put_line(alloc, asked, line, text)?;
    let told = text.octets()?;
    match output.put_all(told) {
        Ok(()) => Ok(()),
        Err(_) => Err(Status::WriteFault),
    }
}

// Appends what a line says: one of a transcript, or of a list or a stream.
fn put_line(alloc: Global, asked: Asked, line: &[u8], text: &mut Text) -> Result<(), AllocError> {
    match parse_transcript(alloc, line) {
        Ok(says) => {
            put_transcript_line(asked.service(), &says, text);
            Ok(())
        }
        Err(Unread::Bad) => match asked {
            Asked::List => put_listed(alloc, line, text),
            Asked::Stream(service) => put_heard(alloc, service, line, text),
        },
        Err(Unread::Memory) => Err(AllocError),
    }
}

fn put_heard(
    alloc: Global,
    service: ServiceType,
    line: &[u8],
    text: &mut Text,
) -> Result<(), AllocError> {
    match parse_stream(alloc, line) {
        Ok(says) => {
            put_stream_line(service, &says, text);
            Ok(())
        }
        Err(Unread::Bad) => put_last(alloc, line, text),
        Err(Unread::Memory) => Err(AllocError),
    }
}

fn put_listed(alloc: Global, line: &[u8], text: &mut Text) -> Result<(), AllocError> {
    match parse_line(alloc, line) {
        Ok(ScriptLine::Offer(entry)) => {
            put_entry(&entry, text);
            Ok(())
        }
        Ok(_) | Err(LineFault::Bad) => put_last(alloc, line, text),
        Err(LineFault::Memory) => Err(AllocError),
    }
}

// Appends what the last line of an output says, or that none has this form.
fn put_last(alloc: Global, line: &[u8], text: &mut Text) -> Result<(), AllocError> {
    match Ending::of(alloc, line)? {
        Some(ending) => put_ending(&ending, text),
        None => text.title("not read: none of the lines that are asked for has this form"),
    }
    Ok(())
}
