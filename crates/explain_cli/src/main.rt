// What the lines that the programs print say, in words.
//
// By the word `explain` alone the input's lines are those of a transcript or of a list; with `raf`,
// `rcf` or `cltu` behind it, those of a transcript with messages of that service, or of a stream
// that its user hears. Each line is written as it stands, and behind it what it says: what happened,
// the name of each PDU and its fields by their names in the standard, words in place of the numbers
// of the standard's tables, and times as ISO 8601 has them. A line that is none of these is told so.
#![tactic(auto)]

mod asked;
mod explain;
mod status;
mod stream;

use crate::asked::plan;
use crate::explain::explain;
use crate::status::Status;
use octet_core::{ReaderSource, Sink, WriterSink};
use std::process::ExitCode;
use std::{env, io};

fn main(rt: HostRuntime) -> io::Result<ExitCode> {
    let mut words = env::args(&rt)?.skip(1);
    let (command, service, more) = (words.next(), words.next(), words.next());
    let mut input = ReaderSource::new(rt.reader());
    let mut output = WriterSink::new(io::writer(&rt));
    let asked = plan(lent(&command), lent(&service), more.is_some());
    let status = match asked {
        Some(asked) => explain(rt.alloc(), asked, &mut input, &mut output),
        None => say_usage(&mut output),
    };
    Ok(ExitCode::from(status.code()))
}

fn lent(word: &Option<String>) -> Option<&str> {
    match word {
        Some(word) => Some(word.as_str()),
        None => None,
    }
}

fn say_usage<O: Sink>(output: &mut O) -> Status {
    match output.put_all(b"usage\n") {
        Ok(()) => Status::Usage,
        Err(_) => Status::WriteFault,
    }
}
