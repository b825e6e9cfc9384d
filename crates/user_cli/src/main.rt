// A user of a provider: it shows a recorded stream, receives frames and sends telecommands over TCP.
//
// The words are those of `user_words`; other words are `usage`. Where PASS is `file`, the word is the
// first line of the file that the environment's USER_PASS_FILE names, so that no password stands
// among the words of a process. `user_service` says what is done and how it ends; here the connection
// is made where the words ask for one, at the address that USER_ADDRESS names, or else at the loopback.
// One that can't be made is told on standard error, with the system's reason. A user that receives
// frames is asked to end once the file that USER_END names is there.
#![tactic(auto)]

mod end_file;

use crate::end_file::EndFile;
use bell::Waiter;
use cds_time::{MachineTime, SystemClock};
use octet_core::{ReaderSource, WriterSink};
use std::alloc::{AllocError, Global};
use std::env::{Args, VarError};
use std::io::Eprint;
use std::net::{IpAddr, Ipv4Addr, SocketAddr, TcpStream};
use std::process::ExitCode;
use std::random::RandomSource;
use std::time::Duration;
use std::{env, fs, io};
use tcp_link::TcpLink;
use user_service::{UserKit, use_service};
use user_words::Plan;

const MEMORY: u8 = 70;

// Where PASS stands among the words, counted from 0.
const PASS_PLACE: usize = 3;

// How many milliseconds a call of the link waits at most.
const WAIT_MILLIS: u64 = 50;

fn main(rt: HostRuntime) -> ExitCode {
    let exit = match words_of(&rt, rt.alloc(), env::args(&rt)) {
        Ok(words) => run(&rt, rt.alloc(), words.as_slice()).unwrap_or(MEMORY),
        Err(_) => MEMORY,
    };
    ExitCode::from(exit)
}

// The words behind the program's name. Words that aren't all texts are as good as none.
fn words_of(
    rt: &HostRuntime,
    alloc: Global,
    arguments: io::Result<Args>,
) -> Result<Vec<String>, AllocError> {
    let mut words = Vec::new(alloc);
    let Ok(arguments) = arguments else {
        return Ok(words);
    };
    for word in arguments.skip(1) {
        words.push(word)?;
    }
    if let Some(word) = words.get_mut(PASS_PLACE) {
        fill_pass(rt, alloc, word);
    }
    Ok(words)
}

// Puts the word of a file in place of `file`.
fn fill_pass(rt: &HostRuntime, alloc: Global, word: &mut String) {
    if word.as_str() != "file" {
        return;
    }
    if let Some(pass) = kept_pass(rt, alloc) {
        *word = pass;
    }
}

// The word of the file that is named for it; none where it can't be read.
fn kept_pass(rt: &HostRuntime, alloc: Global) -> Option<String> {
    let path = env::var(rt, "USER_PASS_FILE").ok()?;
    let text = fs::read_to_string(rt, path.as_str()).ok()?;
    let line = text.as_str().lines().next()?;
    String::from_str(alloc, line).ok()
}

// Does what the words ask for, over what the machine has.
fn run(rt: &HostRuntime, alloc: Global, words: &[String]) -> Result<u8, AllocError> {
    let mut texts = Vec::new(alloc);
    for word in words {
        texts.push(word.as_str())?;
    }
    let Some(address) = address_of(rt) else {
        let _ = rt.eprintln("USER_ADDRESS is no address; 192.0.2.7 or 2001:db8::7 is one");
        texts.clear();
        return serve(rt, alloc, texts.as_slice(), IpAddr::V4(Ipv4Addr::LOCALHOST));
    };
    serve(rt, alloc, texts.as_slice(), address)
}

// Does what the words ask for, with a station at this address.
fn serve(
    rt: &HostRuntime,
    alloc: Global,
    words: &[&str],
    address: IpAddr,
) -> Result<u8, AllocError> {
    let link = link_of(rt, alloc, words, address)?;
    let mut kit = UserKit {
        input: ReaderSource::new(rt.reader()),
        output: WriterSink::new(io::writer(rt)),
        link,
        clock: SystemClock::new(MachineTime(rt)),
        end: EndFile::new(rt, env::var(rt, "USER_END").ok()),
        draw: draw_of(rt),
    };
    let ending = use_service(alloc, words, &mut kit);
    if let Some(link) = &mut kit.link {
        link.finish();
    }
    Ok(ending.code())
}

// The address of the station: what USER_ADDRESS names, or else the loopback's; none where it is none.
fn address_of(rt: &HostRuntime) -> Option<IpAddr> {
    match env::var(rt, "USER_ADDRESS") {
        Ok(text) => text.parse::<IpAddr>().ok(),
        Err(VarError::NotPresent) => Some(IpAddr::V4(Ipv4Addr::LOCALHOST)),
        Err(_) => None,
    }
}

// The connection that the words ask for, where it can be made.
fn link_of(
    rt: &HostRuntime,
    alloc: Global,
    words: &[&str],
    address: IpAddr,
) -> Result<Option<TcpLink>, AllocError> {
    match Plan::read(alloc, words) {
        Ok(Some(Plan::Talk { port, .. })) => Ok(told(rt, alloc, SocketAddr::from((address, port)))),
        Ok(_) => Ok(None),
        Err(_) => Err(AllocError),
    }
}

// The connection to a station; one that can't be made is told.
fn told(rt: &HostRuntime, alloc: Global, station: SocketAddr) -> Option<TcpLink> {
    match connect(rt, alloc, station) {
        Ok(link) => Some(link),
        Err(error) => {
            if let Ok(line) = format!(in alloc; "{station}: {error}") {
                let _ = rt.eprintln(line.as_str());
            }
            None
        }
    }
}

fn connect(rt: &HostRuntime, alloc: Global, station: SocketAddr) -> io::Result<TcpLink> {
    let stream = TcpStream::connect(rt, station)?;
    TcpLink::new(
        alloc,
        stream,
        Waiter::new(rt, alloc)?,
        Duration::from_millis(WAIT_MILLIS),
    )
}

// What the numbers of credentials begin from: 0 where the machine has no random numbers.
fn draw_of<R: RandomSource>(rt: &R) -> u32 {
    let mut octets = [0; 4];
    match rt.fill_bytes(&mut octets) {
        Ok(()) => u32::from_be_bytes(octets) & 0x7fff_ffff,
        Err(_) => 0,
    }
}
