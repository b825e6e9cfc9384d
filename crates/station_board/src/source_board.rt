// The counts of a source of entries.

use crate::counts::{add, get, set};
use octet_core::Memory;
use station_snapshot::SourceNow;
use std::alloc::Global;
use std::net::SocketAddr;
use std::sync::Mutex;
use std::sync::atomic::AtomicU64;

// How often a lock is tried for that another holds for a few instructions.
const TRIES: u32 = 1_000;

/// A kind of entry.
#[derive(Clone, Copy, Debug, PartialEq, Eq)]
pub enum EntryKind {
    Frame,
    Loss,
    Production,
    Seal,
}

// From where a source is connected.
#[derive(Clone, Copy)]
enum Side {
    Nowhere,
    Local,
    Port(SocketAddr),
}

#[derive(Drop)]
pub(crate) struct SourceBoard {
    address: String,
    side: Mutex<Side>,
    connections: AtomicU64,
    lines: AtomicU64,
    frames: AtomicU64,
    losses: AtomicU64,
    productions: AtomicU64,
    seals: AtomicU64,
    entered: AtomicU64,
    faults: AtomicU64,
}

impl SourceBoard {
    pub fn new(address: String) -> SourceBoard {
        SourceBoard {
            address,
            side: Mutex::new(Side::Nowhere),
            connections: AtomicU64::new(0),
            lines: AtomicU64::new(0),
            frames: AtomicU64::new(0),
            losses: AtomicU64::new(0),
            productions: AtomicU64::new(0),
            seals: AtomicU64::new(0),
            entered: AtomicU64::new(0),
            faults: AtomicU64::new(0),
        }
    }

    // It is connected from this port, or from this machine.
    pub fn connected(&self, peer: Option<SocketAddr>) {
        add(&self.connections, 1);
        self.is_at(match peer {
            Some(peer) => Side::Port(peer),
            None => Side::Local,
        });
    }

    // It isn't connected any more.
    pub fn disconnected(&self) {
        self.is_at(Side::Nowhere);
    }

    fn is_at(&self, side: Side) {
        for _ in 0..TRIES {
            if let Some(mut held) = self.side.try_lock() {
                *held = side;
                return;
            }
        }
    }

    pub fn line_came(&self) {
        add(&self.lines, 1);
    }

    pub fn entry_came(&self, kind: EntryKind, at: u64) {
        let count = match kind {
            EntryKind::Frame => &self.frames,
            EntryKind::Loss => &self.losses,
            EntryKind::Production => &self.productions,
            EntryKind::Seal => &self.seals,
        };
        add(count, 1);
        set(&self.entered, at);
    }

    pub fn failed(&self) {
        add(&self.faults, 1);
    }

    // From where it is connected, as a text.
    fn peer(&self, alloc: Global) -> Result<String, Memory> {
        for _ in 0..TRIES {
            if let Some(side) = self.side.try_lock() {
                return match *side {
                    Side::Nowhere => Ok(String::new(alloc)),
                    Side::Local => Ok(String::from_str(alloc, "local")?),
                    Side::Port(peer) => Ok(format!(in alloc; "{peer}")?),
                };
            }
        }
        Ok(String::new(alloc))
    }

    // What it shows now.
    pub fn now(&self, alloc: Global) -> Result<SourceNow, Memory> {
        Ok(SourceNow {
            address: String::from_str(alloc, self.address.as_str())?,
            peer: self.peer(alloc)?,
            connections: get(&self.connections),
            lines: get(&self.lines),
            frames: get(&self.frames),
            losses: get(&self.losses),
            productions: get(&self.productions),
            seals: get(&self.seals),
            entered: get(&self.entered),
            faults: get(&self.faults),
        })
    }
}
