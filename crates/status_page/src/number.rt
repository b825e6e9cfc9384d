// The numbers of a station.
ghost use Rattle.std.specs.Prelude.{◌≡◌};
ghost use Rattle.status_page.specs.Numbers.{numbers};
ghost use Rattle.status_page.specs.Numbers.{number_word, number_help, is_total, number_of};

use crate::flag::flag;
use station_snapshot::Snapshot;

/// A number of a station.
#[derive(Clone, Copy, Debug, PartialEq, Eq)]
pub enum Number {
    Time,
    Start,
    Stopping,
    ClockAhead,
    ClockBehind,
    SourceConnections,
    SourceLines,
    SourceFaults,
    Frames,
    Losses,
    Productions,
    Seals,
    Entered,
    RecorderEnded,
    RecorderTurn,
    ArchiveOctets,
    ArchiveCapacity,
    ArchiveSynced,
    ArchiveFailedSyncs,
    ArchiveFaults,
    ArchiveFailing,
    Sent,
    Unsent,
    SendingEnded,
    AntennaFailing,
    AntennaTurn,
}

// All of them, in the order in which they are written.
const NUMBERS: [Number; 26] = [
    Number::Time,
    Number::Start,
    Number::Stopping,
    Number::ClockAhead,
    Number::ClockBehind,
    Number::SourceConnections,
    Number::SourceLines,
    Number::SourceFaults,
    Number::Frames,
    Number::Losses,
    Number::Productions,
    Number::Seals,
    Number::Entered,
    Number::RecorderEnded,
    Number::RecorderTurn,
    Number::ArchiveOctets,
    Number::ArchiveCapacity,
    Number::ArchiveSynced,
    Number::ArchiveFailedSyncs,
    Number::ArchiveFaults,
    Number::ArchiveFailing,
    Number::Sent,
    Number::Unsent,
    Number::SendingEnded,
    Number::AntennaFailing,
    Number::AntennaTurn,
];

impl Number {
    /// All of them, in the order in which they are written.
    #[tactic(auto, unfolding(crate::specs::Numbers::numbers))]
    pub fn all() -> &'static [Number]
        ensures { result.now ≡ numbers }
    {
        &NUMBERS
    }

    /// Its name, in JSON and after `station_` as a metric.
    pub fn word(self) -> &'static str
        ensures { result.now ≡ number_word self }
    {
        match self {
            Number::Time => "time_seconds",
            Number::Start => "start_time_seconds",
            Number::Stopping => "stopping",
            Number::ClockAhead => "clock_ahead_milliseconds",
            Number::ClockBehind => "clock_behind_milliseconds",
            Number::SourceConnections => "source_connections_total",
            Number::SourceLines => "source_lines_total",
            Number::SourceFaults => "source_faults_total",
            Number::Frames => "frames_total",
            Number::Losses => "losses_total",
            Number::Productions => "productions_total",
            Number::Seals => "seals_total",
            Number::Entered => "last_entry_time_seconds",
            Number::RecorderEnded => "recorder_ended",
            Number::RecorderTurn => "recorder_turn_time_seconds",
            Number::ArchiveOctets => "archive_octets",
            Number::ArchiveCapacity => "archive_capacity_octets",
            Number::ArchiveSynced => "archive_sync_time_seconds",
            Number::ArchiveFailedSyncs => "archive_failed_syncs_total",
            Number::ArchiveFaults => "archive_faults_total",
            Number::ArchiveFailing => "archive_failing",
            Number::Sent => "telecommands_sent_total",
            Number::Unsent => "telecommands_failed_total",
            Number::SendingEnded => "last_telecommand_time_seconds",
            Number::AntennaFailing => "antenna_failing",
            Number::AntennaTurn => "antenna_turn_time_seconds",
        }
    }

    /// What it is, in words.
    pub fn help(self) -> &'static str
        ensures { result.now ≡ number_help self }
    {
        match self {
            Number::Time => "The station's time, in seconds since 1970.",
            Number::Start => "When the station began, in seconds since 1970.",
            Number::Stopping => "1 once a stop was asked for.",
            Number::ClockAhead => "How far the machine's clock is ahead of the station's time.",
            Number::ClockBehind => "How far the machine's clock is behind the station's time.",
            Number::SourceConnections => "Connections of sources of entries.",
            Number::SourceLines => "Lines that came from sources.",
            Number::SourceFaults => "Calls of the source of entries that failed.",
            Number::Frames => "Frames that came.",
            Number::Losses => "Losses of frame synchronisation that came.",
            Number::Productions => "Changes of the production status that came.",
            Number::Seals => "Seals that came.",
            Number::Entered => "When the last entry came, in seconds since 1970; 0 if none has.",
            Number::RecorderEnded => "1 once the recorder has ended.",
            Number::RecorderTurn => "When the recorder began its last turn, in seconds since 1970.",
            Number::ArchiveOctets => "Octets of the archive's file.",
            Number::ArchiveCapacity =>
                "Octets that the archive's file may have; 0 if that isn't known.",
            Number::ArchiveSynced =>
                "When the archive was synced last, in seconds since 1970; 0 if it never was.",
            Number::ArchiveFailedSyncs => "Syncs of the archive's file that failed.",
            Number::ArchiveFaults => "Other calls of the archive's file that failed.",
            Number::ArchiveFailing =>
                "1 if a call of the archive's file failed since the last good sync.",
            Number::Sent => "Telecommands that were sent.",
            Number::Unsent => "Telecommands that couldn't be sent.",
            Number::SendingEnded =>
                "When a sending ended last, in seconds since 1970; 0 if none has.",
            Number::AntennaFailing => "1 if the last sending failed.",
            Number::AntennaTurn =>
                "When the antenna's worker began its last turn, in seconds since 1970.",
        }
    }

    /// True if it only grows.
    pub fn is_total(self) -> bool
        ensures { result ≡ is_total self }
    {
        match self {
            Number::SourceConnections
            | Number::SourceLines
            | Number::SourceFaults
            | Number::Frames
            | Number::Losses
            | Number::Productions
            | Number::Seals
            | Number::ArchiveFailedSyncs
            | Number::ArchiveFaults
            | Number::Sent
            | Number::Unsent => true,
            Number::Time
            | Number::Start
            | Number::Stopping
            | Number::ClockAhead
            | Number::ClockBehind
            | Number::Entered
            | Number::RecorderEnded
            | Number::RecorderTurn
            | Number::ArchiveOctets
            | Number::ArchiveCapacity
            | Number::ArchiveSynced
            | Number::ArchiveFailing
            | Number::SendingEnded
            | Number::AntennaFailing
            | Number::AntennaTurn => false,
        }
    }

    /// What it is in a snapshot.
    pub fn of(self, snapshot: &Snapshot) -> u64
        ensures { result ≡ number_of self snapshot.now }
    {
        match self {
            Number::Time => snapshot.at / 1_000,
            Number::Start => snapshot.began / 1_000,
            Number::Stopping => flag(snapshot.is_stopping),
            Number::ClockAhead => snapshot.wall.saturating_sub(snapshot.at),
            Number::ClockBehind => snapshot.at.saturating_sub(snapshot.wall),
            Number::SourceConnections => snapshot.source.connections,
            Number::SourceLines => snapshot.source.lines,
            Number::SourceFaults => snapshot.source.faults,
            Number::Frames => snapshot.source.frames,
            Number::Losses => snapshot.source.losses,
            Number::Productions => snapshot.source.productions,
            Number::Seals => snapshot.source.seals,
            Number::Entered => snapshot.source.entered / 1_000,
            Number::RecorderEnded => flag(snapshot.recorder.is_ended),
            Number::RecorderTurn => snapshot.recorder.turned / 1_000,
            Number::ArchiveOctets => snapshot.archive.octets,
            Number::ArchiveCapacity => snapshot.archive.capacity,
            Number::ArchiveSynced => snapshot.archive.synced / 1_000,
            Number::ArchiveFailedSyncs => snapshot.archive.failed_syncs,
            Number::ArchiveFaults => snapshot.archive.faults,
            Number::ArchiveFailing => flag(snapshot.archive.is_failing),
            Number::Sent => snapshot.antenna.sent,
            Number::Unsent => snapshot.antenna.failed,
            Number::SendingEnded => snapshot.antenna.ended / 1_000,
            Number::AntennaFailing => flag(snapshot.antenna.is_failing),
            Number::AntennaTurn => snapshot.antenna.turned / 1_000,
        }
    }
}
