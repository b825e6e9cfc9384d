// The messages of a transcript as a capture file.
//
// By the word `capture` the input's lines are those of a transcript. Each transport message that a
// line `sent C HEX` has is written as a segment of TCP in a packet of a capture file, its octets
// whole, so that a network analyser shows it. The packets around the messages are made up: the
// provider's address is 10.0.0.100 with the port 5100, the user's of connection C is 10.0.0.C with
// the port 40000 + C, a packet's time is the number of its line in seconds, and its place in the
// line in microseconds. Lines of other forms have no packet.
#![tactic(auto)]

mod capture;
mod checksum;
mod packet;
mod status;

use crate::capture::capture;
use crate::status::Status;
use octet_core::{ReaderSource, Sink, WriterSink};
use std::process::ExitCode;
use std::{env, io};

fn main(rt: HostRuntime) -> io::Result<ExitCode> {
    let mut words = env::args(&rt)?.skip(1);
    let (command, more) = (words.next(), words.next());
    let mut input = ReaderSource::new(rt.reader());
    let mut output = WriterSink::new(io::writer(&rt));
    let status = if is_capture(&command) && more.is_none() {
        capture(rt.alloc(), &mut input, &mut output)
    } else {
        say_usage(&mut output)
    };
    Ok(ExitCode::from(status.code()))
}

// Whether a word is the program's own.
fn is_capture(word: &Option<String>) -> bool {
    match word {
        Some(word) => word.as_str() == "capture",
        None => false,
    }
}

fn say_usage<O: Sink>(output: &mut O) -> Status {
    match output.put_all(b"usage\n") {
        Ok(()) => Status::Usage,
        Err(_) => Status::WriteFault,
    }
}
