// The counts of one door.

use crate::counts::{add, get, set};
use octet_core::Memory;
use station_snapshot::{DoorNow, DoorState, EndNow};
use std::alloc::Global;
use std::net::SocketAddr;
use std::sync::Mutex;
use std::sync::atomic::{AtomicBool, AtomicU8, AtomicU64, Ordering};

// How often a lock is tried for that another holds for a few instructions.
const TRIES: u32 = 1_000;

// Whom a door serves, and how the last servings ended, the last one first.
#[derive(Drop)]
struct Names {
    peer: Option<SocketAddr>,
    user: Option<String>,
    instance: Option<String>,
    ends: [Option<End>; 3],
}

// How a serving ended.
#[derive(Drop)]
struct End {
    at: u64,
    peer: Option<SocketAddr>,
    how: String,
}

#[derive(Drop)]
pub(crate) struct DoorBoard {
    number: u64,
    address: SocketAddr,
    names: Mutex<Names>,
    state: AtomicU8,
    is_spent: AtomicBool,
    links: AtomicU64,
    most_links: u64,
    since: AtomicU64,
    octets_in: AtomicU64,
    octets_out: AtomicU64,
    heard: AtomicU64,
    stalls: AtomicU64,
    faults: AtomicU64,
    turned: AtomicU64,
}

// A state as a number, and back.
fn number_of(state: DoorState) -> u8 {
    match state {
        DoorState::Waiting => 0,
        DoorState::Serving => 1,
        DoorState::Spent => 2,
        DoorState::Failed => 3,
        DoorState::Closed => 4,
    }
}

fn state_of(number: u8) -> DoorState {
    match number {
        0 => DoorState::Waiting,
        1 => DoorState::Serving,
        2 => DoorState::Spent,
        3 => DoorState::Failed,
        _ => DoorState::Closed,
    }
}

// A peer as a text, empty if there is none.
fn peer_text(alloc: Global, peer: Option<SocketAddr>) -> Result<String, Memory> {
    match peer {
        Some(peer) => Ok(format!(in alloc; "{peer}")?),
        None => Ok(String::new(alloc)),
    }
}

// A text once more, empty if there is none.
fn copy_of(alloc: Global, text: &Option<String>) -> Result<String, Memory> {
    match text {
        Some(text) => Ok(String::from_str(alloc, text.as_str())?),
        None => Ok(String::new(alloc)),
    }
}

// The names of a door as texts.
#[derive(Drop)]
struct Texts {
    peer: String,
    user: String,
    instance: String,
    ends: Vec<EndNow>,
}

impl Texts {
    fn none(alloc: Global) -> Texts {
        Texts {
            peer: String::new(alloc),
            user: String::new(alloc),
            instance: String::new(alloc),
            ends: Vec::new(alloc),
        }
    }
}

impl Names {
    // The same as texts.
    fn texts(&self, alloc: Global) -> Result<Texts, Memory> {
        Ok(Texts {
            peer: peer_text(alloc, self.peer)?,
            user: copy_of(alloc, &self.user)?,
            instance: copy_of(alloc, &self.instance)?,
            ends: self.ends_now(alloc)?,
        })
    }

    fn ends_now(&self, alloc: Global) -> Result<Vec<EndNow>, Memory> {
        let mut ends: Vec<EndNow> = Vec::with_capacity(alloc, self.ends.len())?;
        for end in &self.ends {
            if let Some(end) = end {
                ends.push(EndNow {
                    at: end.at,
                    peer: peer_text(alloc, end.peer)?,
                    how: String::from_str(alloc, end.how.as_str())?,
                })?;
            }
        }
        Ok(ends)
    }

    // It serves nobody, and the last serving ended so.
    fn end(&mut self, end: Option<End>) {
        self.peer = None;
        self.user = None;
        self.instance = None;
        if end.is_some() {
            let second = self.ends[0].take();
            self.ends[2] = self.ends[1].take();
            self.ends[1] = second;
            self.ends[0] = end;
        }
    }
}

impl DoorBoard {
    // The door of this number at this address, which may give so many links.
    pub fn new(number: u64, address: SocketAddr, most_links: u64, began: u64) -> DoorBoard {
        DoorBoard {
            number,
            address,
            names: Mutex::new(Names {
                peer: None,
                user: None,
                instance: None,
                ends: [None, None, None],
            }),
            state: AtomicU8::new(number_of(DoorState::Waiting)),
            is_spent: AtomicBool::new(false),
            links: AtomicU64::new(0),
            most_links,
            since: AtomicU64::new(0),
            octets_in: AtomicU64::new(0),
            octets_out: AtomicU64::new(0),
            heard: AtomicU64::new(0),
            stalls: AtomicU64::new(0),
            faults: AtomicU64::new(0),
            turned: AtomicU64::new(began),
        }
    }

    pub fn set_state(&self, state: DoorState) {
        self.state.store(number_of(state), Ordering::SeqCst);
    }

    // It serves this peer from now on.
    pub fn serves(&self, peer: SocketAddr, at: u64) {
        add(&self.links, 1);
        set(&self.since, at);
        set(&self.heard, at);
        set(&self.turned, at);
        self.set_state(DoorState::Serving);
        for _ in 0..TRIES {
            if let Some(mut names) = self.names.try_lock() {
                names.peer = Some(peer);
                return;
            }
        }
    }

    // Its peer is this user of this instance.
    pub fn bound(&self, user: String, instance: String) {
        for _ in 0..TRIES {
            if let Some(mut names) = self.names.try_lock() {
                names.user = Some(user);
                names.instance = Some(instance);
                return;
            }
        }
    }

    // It serves nobody from now on, and the last serving ended so.
    pub fn ended(&self, how: Option<String>, at: u64) {
        self.set_state(if self.is_spent.load(Ordering::SeqCst) {
            DoorState::Spent
        } else {
            DoorState::Waiting
        });
        let mut how = how;
        for _ in 0..TRIES {
            if let Some(mut names) = self.names.try_lock() {
                let peer = names.peer;
                names.end(how.take().map(|how| End { at, peer, how }));
                return;
            }
        }
    }

    // It has given its last link, which may still be served.
    pub fn spent(&self) {
        self.is_spent.store(true, Ordering::SeqCst);
        if self.state.load(Ordering::SeqCst) == number_of(DoorState::Waiting) {
            self.set_state(DoorState::Spent);
        }
    }

    pub fn heard(&self, count: u64, at: u64) {
        add(&self.octets_in, count);
        set(&self.heard, at);
    }

    pub fn sent(&self, count: u64) {
        add(&self.octets_out, count);
    }

    pub fn stalled(&self) {
        add(&self.stalls, 1);
    }

    pub fn failed(&self) {
        add(&self.faults, 1);
    }

    pub fn turned(&self, at: u64) {
        set(&self.turned, at);
    }

    // Its names as texts, or none while another writes them.
    fn texts(&self, alloc: Global) -> Result<Texts, Memory> {
        for _ in 0..TRIES {
            if let Some(names) = self.names.try_lock() {
                return names.texts(alloc);
            }
        }
        Ok(Texts::none(alloc))
    }

    // What it shows now.
    pub fn now(&self, alloc: Global) -> Result<DoorNow, Memory> {
        let Texts {
            peer,
            user,
            instance,
            ends,
        } = self.texts(alloc)?;
        let address = self.address;
        Ok(DoorNow {
            number: self.number,
            address: format!(in alloc; "{address}")?,
            state: state_of(self.state.load(Ordering::SeqCst)),
            peer,
            user,
            instance,
            links: get(&self.links),
            most_links: self.most_links,
            since: get(&self.since),
            octets_in: get(&self.octets_in),
            octets_out: get(&self.octets_out),
            heard: get(&self.heard),
            stalls: get(&self.stalls),
            faults: get(&self.faults),
            turned: get(&self.turned),
            ends,
        })
    }
}
