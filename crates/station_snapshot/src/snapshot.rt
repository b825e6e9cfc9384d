// What a station shows at one moment.

use crate::door_now::DoorNow;

/// What a station shows at one moment.
///
/// Moments are milliseconds since 1970 by the station's time, which no step of the machine's clock
/// changes. A moment of 0 says that the thing hasn't happened yet. Counts are of this run.
#[derive(Debug, Drop)]
pub struct Snapshot {
    /// The moment of the snapshot.
    pub at: u64,
    /// What the machine's clock showed then, in milliseconds since 1970.
    pub wall: u64,
    /// When the station began.
    pub began: u64,
    /// Which program it is.
    pub version: String,
    /// True once a stop was asked for.
    pub is_stopping: bool,
    /// For how many milliseconds no entry may come before that counts as trouble; 0 for ever.
    pub expected: u64,
    /// The source of entries.
    pub source: SourceNow,
    /// The worker that stores entries.
    pub recorder: RecorderNow,
    /// The archive.
    pub archive: ArchiveNow,
    /// The antenna, and the worker that sends telecommands by it.
    pub antenna: AntennaNow,
    /// Each door, in the order of the plan.
    pub doors: Vec<DoorNow>,
}

/// What a source of entries shows.
#[derive(Debug, Drop)]
pub struct SourceNow {
    /// Where it connects.
    pub address: String,
    /// From where it is connected; empty if it isn't.
    pub peer: String,
    /// How many connections it made, and how many lines came over them.
    pub connections: u64,
    pub lines: u64,
    /// How many entries came of each kind.
    pub frames: u64,
    pub losses: u64,
    pub productions: u64,
    pub seals: u64,
    /// When the last entry came.
    pub entered: u64,
    /// How often a call of it failed.
    pub faults: u64,
}

/// What the worker that stores entries shows.
#[derive(Debug, Drop)]
pub struct RecorderNow {
    /// When it began its last turn.
    pub turned: u64,
    /// True once it has come to its end: no further entry is stored.
    pub is_ended: bool,
}

/// What an archive shows.
#[derive(Debug, Drop)]
pub struct ArchiveNow {
    /// The octets of its file at the last good sync, and how many it may have; 0 if that isn't known.
    pub octets: u64,
    pub capacity: u64,
    /// How many octets the last entry needed at least.
    pub needed: u64,
    /// When its file was synced last.
    pub synced: u64,
    /// How many syncs failed, and how many other calls of its disk.
    pub failed_syncs: u64,
    pub faults: u64,
    /// True if a call failed since the last good sync.
    pub is_failing: bool,
}

/// What an antenna and its worker show.
#[derive(Debug, Drop)]
pub struct AntennaNow {
    /// How many telecommands were sent, and how many couldn't be.
    pub sent: u64,
    pub failed: u64,
    /// When a sending ended last.
    pub ended: u64,
    /// True if that one failed.
    pub is_failing: bool,
    /// When the sending began that goes on now; 0 if none does.
    pub sending: u64,
    /// How many milliseconds a sending may take.
    pub limit: u64,
    /// When the worker began its last turn.
    pub turned: u64,
}
