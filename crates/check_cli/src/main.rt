// Says whether the standard input is a valid configuration of a station: `valid`, or `bad site N C` with
// the number of its first refused line and the cause.
//
// It stands on no crate of a station's run, so it is soon compiled: `bin/provider check` tries it where
// it wasn't proved yet. Its exit codes are those of `drill`, which reads a configuration as the head of a
// script.
#![tactic(auto)]

use octet_core::{ReaderSource, Sink, Source, WriterSink};
use station_config::{Site, SiteFault};
use std::alloc::{AllocError, Global};
use std::io;
use std::process::ExitCode;
use whole_input::{InputFault, read_input};

// How it ends.
#[derive(Clone, Copy, Debug)]
enum Answer {
    Valid,
    BadLine { number: u32, cause: u8 },
    ReadFault,
    TooLong,
    Memory,
}

const WRITE_FAULT: u8 = 7;

const MEMORY: u8 = 70;

fn main(rt: HostRuntime) -> ExitCode {
    let mut input = ReaderSource::new(rt.reader());
    let mut output = WriterSink::new(io::writer(&rt));
    let answer = Answer::of(rt.alloc(), &mut input);
    ExitCode::from(answer.tell(rt.alloc(), &mut output).unwrap_or(MEMORY))
}

impl Answer {
    // What an input is.
    fn of<I: Source>(alloc: Global, input: &mut I) -> Answer {
        match read_input(alloc, input) {
            Ok(text) => Answer::of_text(alloc, text.as_slice()),
            Err(InputFault::ReadFault) => Answer::ReadFault,
            Err(InputFault::TooLong) => Answer::TooLong,
            Err(InputFault::Memory) => Answer::Memory,
        }
    }

    fn of_text(alloc: Global, text: &[u8]) -> Answer {
        match Site::parse(alloc, text) {
            Ok(_) => Answer::Valid,
            Err(SiteFault::BadLine { number, cause }) => Answer::BadLine { number, cause },
            Err(SiteFault::Memory) => Answer::Memory,
        }
    }

    // Its line.
    fn line(self, alloc: Global) -> Result<String, AllocError> {
        match self {
            Answer::Valid => String::from_str(alloc, "valid\n"),
            Answer::BadLine { number, cause } => {
                format!(in alloc; "bad site {number} {cause}\n")
            }
            Answer::ReadFault => String::from_str(alloc, "read fault\n"),
            Answer::TooLong => String::from_str(alloc, "input too long\n"),
            Answer::Memory => Ok(String::new(alloc)),
        }
    }

    fn code(self) -> u8 {
        match self {
            Answer::Valid => 0,
            Answer::BadLine { .. } => 4,
            Answer::ReadFault => 6,
            Answer::TooLong => 11,
            Answer::Memory => MEMORY,
        }
    }

    // Writes its line, and answers the exit code.
    fn tell<O: Sink>(self, alloc: Global, output: &mut O) -> Result<u8, AllocError> {
        let line = self.line(alloc)?;
        match output.put_all(line.as_bytes()) {
            Ok(()) => Ok(self.code()),
            Err(_) => Ok(WRITE_FAULT),
        }
    }
}
