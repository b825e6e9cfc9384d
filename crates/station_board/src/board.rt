// The board that a station's adapters share.

use crate::archive_board::{AntennaBoard, ArchiveBoard};
use crate::counts::{get, set};
use crate::door_board::DoorBoard;
use crate::source_board::{EntryKind, SourceBoard};
use octet_core::Memory;
use station_snapshot::{DoorNow, RecorderNow, Snapshot};
use std::alloc::Global;
use std::net::SocketAddr;
use std::sync::Arc;
use std::sync::atomic::{AtomicBool, AtomicU64, Ordering};

/// What is known when a station begins.
#[derive(Clone, Copy, Debug)]
pub struct Beginning<'a> {
    /// When it begins, in milliseconds since 1970.
    pub at: u64,
    /// Which program it is.
    pub version: &'a str,
    /// Where the source of entries connects.
    pub source: &'a str,
    /// Where each door listens.
    pub doors: &'a [SocketAddr],
    /// How many connections each door may give.
    pub links: u64,
    /// For how many milliseconds no entry may come before that counts as trouble; 0 for ever.
    pub expected: u64,
    /// How many milliseconds a sending of the antenna may take.
    pub send_limit: u64,
}

/// The counts of a station. All that share it see each other's.
#[derive(Drop)]
pub struct Board {
    shared: Arc<Shared, Global>,
}

// What is shared.
#[derive(Drop)]
struct Shared {
    at: AtomicU64,
    wall: AtomicU64,
    began: u64,
    version: String,
    expected: u64,
    is_stopping: AtomicBool,
    recorder_turned: AtomicU64,
    recorder_ended: AtomicBool,
    source: SourceBoard,
    archive: ArchiveBoard,
    antenna: AntennaBoard,
    doors: Vec<DoorBoard>,
}

// A board for each of these doors.
fn doors_of(alloc: Global, beginning: &Beginning<'_>) -> Result<Vec<DoorBoard>, Memory> {
    let mut doors = Vec::with_capacity(alloc, beginning.doors.len())?;
    let mut number = 0u64;
    for address in beginning.doors {
        number = number.saturating_add(1);
        doors.push(DoorBoard::new(number, *address, beginning.links, beginning.at))?;
    }
    Ok(doors)
}

impl Board {
    /// A board of a station that begins so.
    pub fn new(alloc: Global, beginning: &Beginning<'_>) -> Result<Board, Memory> {
        let began = beginning.at;
        let source = String::from_str(alloc, beginning.source)?;
        let shared = Shared {
            at: AtomicU64::new(began),
            wall: AtomicU64::new(began),
            began,
            version: String::from_str(alloc, beginning.version)?,
            expected: beginning.expected,
            is_stopping: AtomicBool::new(false),
            recorder_turned: AtomicU64::new(began),
            recorder_ended: AtomicBool::new(false),
            source: SourceBoard::new(source),
            archive: ArchiveBoard::new(),
            antenna: AntennaBoard::new(beginning.send_limit, began),
            doors: doors_of(alloc, beginning)?,
        };
        Ok(Board {
            shared: Arc::new(alloc, shared)?,
        })
    }

    /// The same board, for another that writes or reads it.
    pub fn share(&self) -> Result<Board, Memory> {
        Ok(Board {
            shared: Arc::try_clone(&self.shared)?,
        })
    }

    pub(crate) fn door(&self, door: usize) -> Option<&DoorBoard> {
        self.shared.doors.get(door)
    }

    /// The moment that it heard last.
    pub fn at(&self) -> u64 {
        get(&self.shared.at)
    }

    /// Hears the moment by the station's time, by which all that write on it know the time, and what
    /// the machine's clock shows, both in milliseconds since 1970.
    pub fn tick(&self, at: u64, wall: u64) {
        set(&self.shared.at, at);
        set(&self.shared.wall, wall);
    }

    /// A stop was asked for.
    pub fn stopping(&self) {
        self.shared.is_stopping.store(true, Ordering::SeqCst);
    }

    /// A source of entries connected, from this port or else from this machine.
    pub fn source_connected(&self, peer: Option<SocketAddr>) {
        self.shared.source.connected(peer);
    }

    /// The source's connection ended.
    pub fn source_ended(&self) {
        self.shared.source.disconnected();
    }

    /// A line of the source came.
    pub fn line_came(&self) {
        self.shared.source.line_came();
    }

    /// An entry of this kind came, which needs so many octets of the archive at least.
    pub fn entry_came(&self, kind: EntryKind, needed: u64) {
        self.shared.source.entry_came(kind, self.at());
        self.shared.archive.needs(needed);
    }

    /// A call of the source failed.
    pub fn source_failed(&self) {
        self.shared.source.failed();
    }

    /// The recorder began a turn.
    pub fn recorder_turned(&self) {
        self.shared.archive.turned();
        set(&self.shared.recorder_turned, self.at());
    }

    /// The recorder came to its end.
    pub fn recorder_ended(&self) {
        self.shared.recorder_ended.store(true, Ordering::SeqCst);
    }

    /// The archive may have so many octets.
    pub fn archive_capacity(&self, octets: u64) {
        self.shared.archive.has_capacity(octets);
    }

    /// The archive's file has so many octets, as it was opened.
    pub fn archive_opened(&self, octets: u64) {
        self.shared.archive.has_octets(octets);
    }

    /// The archive's file was synced, and has so many octets.
    pub fn archive_synced(&self, octets: u64) {
        self.shared.archive.synced(octets, self.at());
    }

    /// A sync of the archive's file failed. After two failed calls in a turn the recorder is at its
    /// end.
    pub fn sync_failed(&self) {
        if self.shared.archive.sync_failed() {
            self.recorder_ended();
        }
    }

    /// Another call of the archive's disk failed. After two failed calls in a turn the recorder is at
    /// its end.
    pub fn archive_failed(&self) {
        if self.shared.archive.failed() {
            self.recorder_ended();
        }
    }

    /// The antenna begins to send a telecommand.
    pub fn sending(&self) {
        self.shared.antenna.begins(self.at());
    }

    /// The antenna has sent it, or couldn't.
    pub fn sending_ended(&self, is_sent: bool) {
        self.shared.antenna.ends(is_sent, self.at());
    }

    /// The antenna's worker began a turn.
    pub fn antenna_turned(&self) {
        set(&self.shared.antenna.turned, self.at());
    }

    /// What it shows now.
    pub fn snapshot(&self, alloc: Global) -> Result<Snapshot, Memory> {
        let shared = &self.shared;
        Ok(Snapshot {
            at: self.at(),
            wall: get(&shared.wall),
            began: shared.began,
            version: String::from_str(alloc, shared.version.as_str())?,
            is_stopping: shared.is_stopping.load(Ordering::SeqCst),
            expected: shared.expected,
            source: shared.source.now(alloc)?,
            recorder: RecorderNow {
                turned: get(&shared.recorder_turned),
                is_ended: shared.recorder_ended.load(Ordering::SeqCst),
            },
            archive: shared.archive.now(),
            antenna: shared.antenna.now(),
            doors: self.doors(alloc)?,
        })
    }

    // What the doors show now.
    fn doors(&self, alloc: Global) -> Result<Vec<DoorNow>, Memory> {
        let mut doors: Vec<DoorNow> = Vec::with_capacity(alloc, self.shared.doors.len())?;
        for door in &self.shared.doors {
            doors.push(door.now(alloc)?)?;
        }
        Ok(doors)
    }
}
