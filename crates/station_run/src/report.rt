// What came of a station's run.

use antenna_turns::{Radiated, TurnsSpent};
use octet_core::Memory;
use recorder_turns::{RecordingFault, Tally};
use station_book::Event;
use station_seats::DoorReport;
use turn_lock::Pass;

/// Why a station doesn't start.
#[derive(Clone, Copy, Debug, PartialEq, Eq)]
pub enum StartFault {
    /// The octet of the archive's header at this place is another one or missing.
    NotJournal { place: u64 },
    /// Here the archive's file stops being of its form.
    Damaged { place: u64 },
    /// The archive's disk failed.
    DiskFault,
    /// Memory was wanted and refused.
    Memory,
}

impl From<Memory> for StartFault {
    ghost use Rattle.std.specs.Prelude.{◌≡◌};
    ghost use Rattle.station_run.specs.declared.report.StartFault.TheVariants.{Memory};

    ghost from_gives = { λ _ fault. fault ≡ Memory };

    fn from(_: octet_core::Memory) -> StartFault {
        StartFault::Memory
    }
}

/// What came of a station's run.
#[derive(Drop)]
pub struct RunReport {
    /// The closed pass, with the history and each worker's own events in it.
    pub pass: Pass<Event>,
    /// How many entries were published.
    pub published: u64,
    /// How the recorder ended, with what it stored and dropped.
    pub recording: Result<Tally, RecordingFault>,
    /// How the antenna's worker ended, with how many CLTUs it radiated.
    pub radiating: Result<Radiated, TurnsSpent>,
    /// What each door's worker reports, in the doors' order.
    pub doors: Vec<DoorReport>,
}
