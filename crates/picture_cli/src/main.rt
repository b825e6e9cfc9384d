// A page that shows what a script led to.
//
// By the word `picture` the input is the script's length in octets, in decimal digits and an 0A; so
// many octets, which are the script; and up to its end the transcript that `drill` gives of the same
// script with a line `start 0/1/0 0/0/0 0` in front of each line behind its head. The output is a page
// of HTML: lanes, in which each line is a column, and the table of all lines. `bin/provider picture`
// puts the input together.
#![tactic(auto)]

mod input;
mod picture;
mod status;

use crate::picture::show;
use crate::status::Status;
use octet_core::{ReaderSource, Sink, WriterSink};
use std::process::ExitCode;
use std::{env, io};

fn main(rt: HostRuntime) -> io::Result<ExitCode> {
    let mut words = env::args(&rt)?.skip(1);
    let (command, more) = (words.next(), words.next());
    let mut input = ReaderSource::new(rt.reader());
    let mut output = WriterSink::new(io::writer(&rt));
    let status = if is_picture(&command) && more.is_none() {
        show(rt.alloc(), &mut input, &mut output)
    } else {
        say_usage(&mut output)
    };
    Ok(ExitCode::from(status.code()))
}

// Whether a word is the program's own.
fn is_picture(word: &Option<String>) -> bool {
    match word {
        Some(word) => word.as_str() == "picture",
        None => false,
    }
}

fn say_usage<O: Sink>(output: &mut O) -> Status {
    match output.put_all(b"usage\n") {
        Ok(()) => Status::Usage,
        Err(_) => Status::WriteFault,
    }
}
