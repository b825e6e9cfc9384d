// Steps of a script.
use super::named::hex_of;
use octet_core::{Memory, Octets};
use std::alloc::{AllocError, Global};

// What is done.
#[derive(Clone, Copy, Debug, PartialEq, Eq)]
pub enum What {
    // The clock reads so many microseconds.
    Clock,
    // A session begins at a door. Where a number is given, this call of its link fails.
    Open,
    // Octets arrive at a door's link, in one piece.
    Piece,
    // They do, and the session makes a round.
    In,
    // The calls of a session.
    Round,
    Listen,
    Step,
    Speak,
    // What becomes of a link: the peer closes, the next poll fails, so many offers stall.
    Shut,
    Break,
    Stall,
    // A door asks the book besides its session: to bind an instance, to begin a run of the forward
    // service, and for a notice.
    Bind,
    Start,
    Told,
    // Its worker frees what it has bound.
    Quit,
    // Production has this status.
    Uplink,
    // The antenna takes the next CLTU, and the radiation of what it took last ends.
    Take,
    Done,
    // A frame is published, with this time in milliseconds and these octets.
    Frame,
    // The book's latest moment is told.
    Moment,
}

#[derive(Clone, Copy)]
pub struct Step<'a> {
    pub what: What,
    pub door: u32,
    // Octets in words, or a number.
    pub rest: &'a str,
}

// Each step by its word.
const WORDS: [(&str, What); 20] = [
    ("clock", What::Clock),
    ("open", What::Open),
    ("piece", What::Piece),
    ("in", What::In),
    ("round", What::Round),
    ("listen", What::Listen),
    ("step", What::Step),
    ("speak", What::Speak),
    ("shut", What::Shut),
    ("break", What::Break),
    ("stall", What::Stall),
    ("bind", What::Bind),
    ("start", What::Start),
    ("told", What::Told),
    ("quit", What::Quit),
    ("uplink", What::Uplink),
    ("take", What::Take),
    ("done", What::Done),
    ("frame", What::Frame),
    ("moment", What::Moment),
];

fn what_of(word: &str) -> What {
    for (name, what) in WORDS {
        if word == name {
            return what;
        }
    }
    What::Moment
}

/// The number of a word, or 0.
pub fn number(word: &str) -> u32 {
    word.trim().parse().unwrap_or(0)
}

// Appends the octets of a word: their name or their digits, as often as it says behind a star.
fn append(alloc: Global, octets: &mut Vec<u8>, word: &str) -> Result<(), AllocError> {
    let (word, times) = word.split_once('*').unwrap_or((word, "1"));
    let Ok(part) = hex::decode(alloc, hex_of(word)) else {
        return Err(AllocError);
    };
    for _ in 0..number(times) {
        octets.extend_from_slice(&part)?;
    }
    Ok(())
}

/// The octets of words.
pub fn octets_of(alloc: Global, words: &str) -> Result<Octets, Memory> {
    let mut octets = Vec::new(alloc);
    for word in words.split_whitespace() {
        append(alloc, &mut octets, word)?;
    }
    Octets::from_vec(alloc, octets)
}

/// The step of a line: its word, its door or its only number, and a further number or octets.
pub fn step_of(line: &str) -> Step<'_> {
    let (what, rest) = line.split_once(' ').unwrap_or((line, ""));
    let (door, rest) = rest.split_once(' ').unwrap_or((rest, ""));
    Step {
        what: what_of(what),
        door: number(door),
        rest,
    }
}
