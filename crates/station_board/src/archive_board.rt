// The counts of an archive, and of an antenna.

use crate::counts::{add, get, set};
use station_snapshot::{AntennaNow, ArchiveNow};
use std::sync::atomic::{AtomicBool, AtomicU64, Ordering};

#[derive(Drop)]
pub(crate) struct ArchiveBoard {
    octets: AtomicU64,
    capacity: AtomicU64,
    needed: AtomicU64,
    synced: AtomicU64,
    failed_syncs: AtomicU64,
    faults: AtomicU64,
    is_failing: AtomicBool,
    // How many calls failed since the recorder's last turn began.
    in_turn: AtomicU64,
}

impl ArchiveBoard {
    pub fn new() -> ArchiveBoard {
        ArchiveBoard {
            octets: AtomicU64::new(0),
            capacity: AtomicU64::new(0),
            needed: AtomicU64::new(0),
            synced: AtomicU64::new(0),
            failed_syncs: AtomicU64::new(0),
            faults: AtomicU64::new(0),
            is_failing: AtomicBool::new(false),
            in_turn: AtomicU64::new(0),
        }
    }

    pub fn has_capacity(&self, octets: u64) {
        set(&self.capacity, octets);
    }

    pub fn has_octets(&self, octets: u64) {
        set(&self.octets, octets);
    }

    pub fn needs(&self, octets: u64) {
        set(&self.needed, octets);
    }

    pub fn synced(&self, octets: u64, at: u64) {
        set(&self.octets, octets);
        set(&self.synced, at);
        self.is_failing.store(false, Ordering::SeqCst);
    }

    // A sync failed. Answers whether the recorder has come to its end by that.
    pub fn sync_failed(&self) -> bool {
        add(&self.failed_syncs, 1);
        self.fails()
    }

    // Another call failed. Answers whether the recorder has come to its end by that.
    pub fn failed(&self) -> bool {
        add(&self.faults, 1);
        self.fails()
    }

    // The recorder begins a turn.
    pub fn turned(&self) {
        set(&self.in_turn, 0);
    }

    // A recorder goes on after one failed call of a turn, with the archive opened anew.
    fn fails(&self) -> bool {
        self.is_failing.store(true, Ordering::SeqCst);
        add(&self.in_turn, 1);
        get(&self.in_turn) > 1
    }

    // What it shows now.
    pub fn now(&self) -> ArchiveNow {
        ArchiveNow {
            octets: get(&self.octets),
            capacity: get(&self.capacity),
            needed: get(&self.needed),
            synced: get(&self.synced),
            failed_syncs: get(&self.failed_syncs),
            faults: get(&self.faults),
            is_failing: self.is_failing.load(Ordering::SeqCst),
        }
    }
}

#[derive(Drop)]
pub(crate) struct AntennaBoard {
    sent: AtomicU64,
    failed: AtomicU64,
    ended: AtomicU64,
    is_failing: AtomicBool,
    sending: AtomicU64,
    limit: u64,
    pub turned: AtomicU64,
}

impl AntennaBoard {
    // An antenna whose sendings may take so many milliseconds.
    pub fn new(limit: u64, began: u64) -> AntennaBoard {
        AntennaBoard {
            sent: AtomicU64::new(0),
            failed: AtomicU64::new(0),
            ended: AtomicU64::new(0),
            is_failing: AtomicBool::new(false),
            sending: AtomicU64::new(0),
            limit,
            turned: AtomicU64::new(began),
        }
    }

    pub fn begins(&self, at: u64) {
        set(&self.sending, at);
    }

    pub fn ends(&self, is_sent: bool, at: u64) {
        add(if is_sent { &self.sent } else { &self.failed }, 1);
        self.is_failing.store(!is_sent, Ordering::SeqCst);
        set(&self.ended, at);
        set(&self.turned, at);
        set(&self.sending, 0);
    }

    // What it shows now.
    pub fn now(&self) -> AntennaNow {
        AntennaNow {
            sent: get(&self.sent),
            failed: get(&self.failed),
            ended: get(&self.ended),
            is_failing: self.is_failing.load(Ordering::SeqCst),
            sending: get(&self.sending),
            limit: self.limit,
            turned: get(&self.turned),
        }
    }
}
