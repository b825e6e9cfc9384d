// Prints a recorded stream of a service in lines, as `show` of the user's program does.
//
// It stands on no crate of a talk, so it is soon compiled: `bin/user show` tries it where the user's
// program wasn't proved yet. Its words are `show` and the service.
#![tactic(auto)]

use octet_core::{ReaderSource, WriterSink};
use sle_numbers::ServiceType;
use std::process::ExitCode;
use std::{env, io};
use user_show::{Ending, end_with, show};

fn main(rt: HostRuntime) -> io::Result<ExitCode> {
    let mut words = env::args(&rt)?.skip(1);
    let (command, service, more) = (words.next(), words.next(), words.next());
    let mut output = WriterSink::new(io::writer(&rt));
    let asked = asked(lent(&command), lent(&service), more.is_some());
    let ending = match asked {
        Some(service) => show(
            rt.alloc(),
            service,
            &mut ReaderSource::new(rt.reader()),
            &mut output,
        ),
        None => end_with(b"usage\n", Ending::Usage, &mut output),
    };
    Ok(ExitCode::from(ending.code()))
}

fn lent(word: &Option<String>) -> Option<&str> {
    match word {
        Some(word) => Some(word.as_str()),
        None => None,
    }
}

// The service that two words ask for.
fn asked(command: Option<&str>, service: Option<&str>, more: bool) -> Option<ServiceType> {
    if command != Some("show") || more {
        return None;
    }
    match service {
        Some("raf") => Some(ServiceType::RtnAllFrames),
        Some("rcf") => Some(ServiceType::RtnChFrames),
        Some("cltu") => Some(ServiceType::FwdCltu),
        _ => None,
    }
}
