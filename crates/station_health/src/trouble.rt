// What may be wrong with a station.
ghost use Rattle.std.specs.Prelude.{◌≡◌};
ghost use Rattle.std.specs.List.{list_any};
ghost use Rattle.station_health.specs.Health.{troubles, is_failed, is_spent, is_there, is_serious, harms};
ghost use Rattle.station_health.specs.Health.{trouble_name, trouble_words, trouble_advice};

use crate::rules::{clock_off, is_almost_full, is_full, no_door, no_entry, worker_late};
use station_snapshot::{DoorNow, DoorState, Snapshot};

/// What may be wrong with a station.
#[derive(Clone, Copy, Debug, PartialEq, Eq)]
pub enum Trouble {
    /// The recorder came to its end.
    RecorderEnded,
    /// A call of the archive's disk failed, and no sync was good since.
    DiskFailing,
    /// The last entry wouldn't fit into the archive once more.
    ArchiveFull,
    /// No door serves a user or may.
    NoDoor,
    /// The last sending failed.
    AntennaFailing,
    /// A worker has made no turn for 30 s, or a sending is over its limit.
    WorkerLate,
    /// A stop was asked for.
    Stopping,
    /// A sync of the archive's file failed in this run.
    SyncFailed,
    /// Less than a tenth of the archive is free.
    ArchiveAlmostFull,
    /// A door failed, and takes no more users.
    DoorFailed,
    /// A door gave the last of its connections.
    DoorSpent,
    /// The machine's clock is more than 1 s off the station's time.
    ClockOff,
    /// No entry came for longer than expected.
    NoEntry,
}

// All of them, the serious ones first.
const TROUBLES: [Trouble; 13] = [
    Trouble::RecorderEnded,
    Trouble::DiskFailing,
    Trouble::ArchiveFull,
    Trouble::NoDoor,
    Trouble::AntennaFailing,
    Trouble::WorkerLate,
    Trouble::Stopping,
    Trouble::SyncFailed,
    Trouble::ArchiveAlmostFull,
    Trouble::DoorFailed,
    Trouble::DoorSpent,
    Trouble::ClockOff,
    Trouble::NoEntry,
];

// True if one of the doors failed.
fn has_failed(doors: &[DoorNow]) -> bool
    ensures { result ≡ list_any (λ door. is_failed door.state) doors.now }
{
    doors
        .iter()
        .any(|door| matches!(door.state, DoorState::Failed))
}

// True if one of the doors is spent.
fn has_spent(doors: &[DoorNow]) -> bool
    ensures { result ≡ list_any (λ door. is_spent door.state) doors.now }
{
    doors
        .iter()
        .any(|door| matches!(door.state, DoorState::Spent))
}

impl Trouble {
    /// All of them, the serious ones first.
    #[tactic(auto, unfolding(crate::specs::Health::troubles))]
    pub fn all() -> &'static [Trouble]
        ensures { result.now ≡ troubles }
    {
        &TROUBLES
    }

    /// True if a station that shows this has it.
    pub fn is_there(self, snapshot: &Snapshot) -> bool
        ensures { result ≡ is_there self snapshot.now }
    {
        match self {
            Trouble::RecorderEnded => snapshot.recorder.is_ended,
            Trouble::DiskFailing => snapshot.archive.is_failing,
            Trouble::ArchiveFull => is_full(&snapshot.archive),
            Trouble::NoDoor => no_door(snapshot),
            Trouble::AntennaFailing => snapshot.antenna.is_failing,
            Trouble::WorkerLate => worker_late(snapshot),
            Trouble::Stopping => snapshot.is_stopping,
            Trouble::SyncFailed => snapshot.archive.failed_syncs > 0,
            Trouble::ArchiveAlmostFull => is_almost_full(&snapshot.archive),
            Trouble::DoorFailed => has_failed(&snapshot.doors),
            Trouble::DoorSpent => has_spent(&snapshot.doors),
            Trouble::ClockOff => clock_off(snapshot),
            Trouble::NoEntry => no_entry(snapshot),
        }
    }

    /// True if a station that has it isn't healthy.
    pub fn is_serious(self) -> bool
        ensures { result ≡ is_serious self }
    {
        match self {
            Trouble::RecorderEnded
            | Trouble::DiskFailing
            | Trouble::ArchiveFull
            | Trouble::NoDoor
            | Trouble::AntennaFailing
            | Trouble::WorkerLate
            | Trouble::Stopping => true,
            Trouble::SyncFailed
            | Trouble::ArchiveAlmostFull
            | Trouble::DoorFailed
            | Trouble::DoorSpent
            | Trouble::ClockOff
            | Trouble::NoEntry => false,
        }
    }

    // True if it is serious, and there.
    pub(crate) fn harms(self, snapshot: &Snapshot) -> bool
        ensures { result ≡ harms snapshot.now self }
    {
        self.is_serious() && self.is_there(snapshot)
    }

    /// Its name, for programs.
    pub fn name(self) -> &'static str
        ensures { result.now ≡ trouble_name self }
    {
        match self {
            Trouble::RecorderEnded => "recorder_ended",
            Trouble::DiskFailing => "disk_failing",
            Trouble::ArchiveFull => "archive_full",
            Trouble::NoDoor => "no_door",
            Trouble::AntennaFailing => "antenna_failing",
            Trouble::WorkerLate => "worker_late",
            Trouble::Stopping => "stopping",
            Trouble::SyncFailed => "sync_failed",
            Trouble::ArchiveAlmostFull => "archive_almost_full",
            Trouble::DoorFailed => "door_failed",
            Trouble::DoorSpent => "door_spent",
            Trouble::ClockOff => "clock_off",
            Trouble::NoEntry => "no_entry",
        }
    }

    /// What is wrong, in words.
    pub fn words(self) -> &'static str
        ensures { result.now ≡ trouble_words self }
    {
        match self {
            Trouble::RecorderEnded => "the recorder has ended, and entries are no longer stored",
            Trouble::DiskFailing => "the archive's disk failed, and nothing was synced since",
            Trouble::ArchiveFull => "the archive is full, and entries are refused",
            Trouble::NoDoor => "no door takes a user any more",
            Trouble::AntennaFailing => "the antenna's last sending failed",
            Trouble::WorkerLate => "a worker has made no turn for 30 s, or a sending is too long",
            Trouble::Stopping => "a stop was asked for",
            Trouble::SyncFailed => "a sync of the archive's file failed",
            Trouble::ArchiveAlmostFull => "the archive is above 90 percent full",
            Trouble::DoorFailed => "a door failed, and takes no more users",
            Trouble::DoorSpent => "a door gave the last of its connections",
            Trouble::ClockOff => "the machine's clock is more than 1 s off the station's time",
            Trouble::NoEntry => "no entry came for longer than expected",
        }
    }

    /// What to do, in words.
    pub fn advice(self) -> &'static str
        ensures { result.now ≡ trouble_advice self }
    {
        match self {
            Trouble::RecorderEnded => "read the log and start the station again",
            Trouble::DiskFailing => "read the log and look at the disk",
            Trouble::ArchiveFull => "stop the station and make a new archive",
            Trouble::NoDoor => "read the log and start the station again",
            Trouble::AntennaFailing => "look at the antenna",
            Trouble::WorkerLate => "read the log; start the station again if this lasts",
            Trouble::Stopping => "wait for the station's end",
            Trouble::SyncFailed =>
                "don't open the file again before the machine or its volume was started again",
            Trouble::ArchiveAlmostFull => "stop the station after this pass and make a new archive",
            Trouble::DoorFailed => "read the log; start the station again after this pass",
            Trouble::DoorSpent => "start the station again after this pass",
            Trouble::ClockOff => "start the station again after this pass",
            Trouble::NoEntry => "look at the source of entries",
        }
    }
}
