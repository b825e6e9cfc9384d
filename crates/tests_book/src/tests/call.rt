// Calls of a book, and what they are answered.
use cltu_queue::BookReply;
use fcltu_numbers::{CltuNotificationType, CltuProductionStatus};

// What is called.
#[derive(Clone, Copy, Debug)]
pub enum What {
    Nothing,
    Quiet,
    Bind,
    Unbind,
    Start,
    Transfer,
    Stop,
    Quit,
    Publish,
    Nowhere,
    Front,
    Look,
    Take,
    Done,
    Interrupted,
    Uplink,
    View,
    Count,
}

// A call: its reading and its door, where it has such, and its numbers.
#[derive(Clone, Copy, Debug)]
pub struct Call {
    pub reading: u32,
    pub door: u32,
    pub what: What,
    pub first: u32,
    pub second: u32,
}

// An answer.
#[derive(Clone, Copy, Debug, PartialEq, Eq)]
pub enum Answer {
    Fine,
    // A reply without a notice, and with one of this kind.
    Said(BookReply),
    Told(BookReply, CltuNotificationType),
    // So many entries are handed back.
    Foreign(usize),
    // The front, how many items there are, the place behind them, whether more remain, and whether
    // the stop is closed.
    Seen(u64, usize, u64, bool, bool),
    Idle,
    Waits,
    Expired(u32),
    Radiates(u64, u32),
    // The latest moment, the free octets and the production status.
    Queue(u128, u32, CltuProductionStatus),
    // How many entries are published.
    Count(u64),
}

fn number(word: Option<&str>) -> u32 {
    match word {
        Some(word) => word.parse().unwrap_or(0),
        None => 0,
    }
}

// Each call by its word.
const WORDS: [(&str, What); 18] = [
    ("nothing", What::Nothing),
    ("quiet", What::Quiet),
    ("bind", What::Bind),
    ("unbind", What::Unbind),
    ("start", What::Start),
    ("transfer", What::Transfer),
    ("stop", What::Stop),
    ("quit", What::Quit),
    ("publish", What::Publish),
    ("nowhere", What::Nowhere),
    ("front", What::Front),
    ("look", What::Look),
    ("take", What::Take),
    ("done", What::Done),
    ("interrupted", What::Interrupted),
    ("uplink", What::Uplink),
    ("view", What::View),
    ("count", What::Count),
];

fn what_of(word: &str) -> What {
    for (name, what) in WORDS {
        if word == name {
            return what;
        }
    }
    What::Nothing
}

// The call of a line. A number that isn't there is 0.
pub fn call_of(line: &str) -> Call {
    let mut words = line.split_whitespace();
    Call {
        reading: number(words.next()),
        door: number(words.next()),
        what: what_of(words.next().unwrap_or("")),
        first: number(words.next()),
        second: number(words.next()),
    }
}
