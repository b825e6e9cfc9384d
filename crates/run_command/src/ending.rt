// Which status a run ends with.
ghost use Rattle.std.specs.Prelude.{◌≡◌, Ok};
ghost use Rattle.run_command.specs.Statuses.{started_with, refused_with, recorded_with, run_status};
ghost use Rattle.run_command.specs.Statuses.{is_spent, any_memory, any_failed, any_spent};

use crate::status::RunStatus;
use antenna_turns::{Radiated, TurnsSpent};
use frame_archive::ArchiveFault;
use recorder_turns::{RecordingFault, Tally};
use station_run::StartFault;
use station_seats::DoorReport;

fn wants_memory(doors: &[DoorReport]) -> bool
    ensures { result ≡ any_memory doors.now }
{
    doors.iter().any(|door| door.memory)
}

fn has_failed(doors: &[DoorReport]) -> bool
    ensures { result ≡ any_failed doors.now }
{
    doors.iter().any(|door| door.failed)
}

fn has_spent(doors: &[DoorReport]) -> bool
    ensures { result ≡ any_spent doors.now }
{
    doors.iter().any(|door| door.spent)
}

fn antenna_spent(radiating: &Result<Radiated, TurnsSpent>) -> bool
    ensures { result ≡ is_spent radiating.now }
{
    match radiating {
        Ok(_) => false,
        Err(_) => true,
    }
}

// The status of a run of which the workers ended so.
pub(crate) fn status_of(
    recording: &Result<Tally, RecordingFault>,
    radiating: &Result<Radiated, TurnsSpent>,
    doors: &[DoorReport],
) -> RunStatus
    ensures { result ≡ run_status recording.now radiating.now doors.now }
{
    let failed = has_failed(doors);
    let spent = antenna_spent(radiating) || has_spent(doors);
    if wants_memory(doors) {
        RunStatus::Memory
    } else {
        recorded_status(recording, failed, spent)
    }
}

// The status that the recorder gives, by whether a door failed, and whether turns of another worker
// were spent.
fn recorded_status(
    recording: &Result<Tally, RecordingFault>,
    failed: bool,
    spent: bool,
) -> RunStatus
    ensures { result ≡ recorded_with recording.now failed spent }
{
    match recording {
        Ok(tally) => stored_status(tally, failed, spent),
        Err(RecordingFault::Memory | RecordingFault::Foreign) => RunStatus::Memory,
        Err(RecordingFault::DiskFault) => RunStatus::DiskFault,
        Err(RecordingFault::Refused(fault)) => refused_status(*fault),
        Err(RecordingFault::SourceFault) => RunStatus::ReadFault,
        Err(RecordingFault::TurnsSpent) => {
            if failed {
                RunStatus::ReadFault
            } else {
                RunStatus::TurnsSpent
            }
        }
    }
}

// The status of a run whose recorder came to its source's end.
fn stored_status(tally: &Tally, failed: bool, spent: bool) -> RunStatus
    ensures { result ≡ recorded_with (Ok tally.now) failed spent }
{
    if failed {
        RunStatus::ReadFault
    } else if spent {
        RunStatus::TurnsSpent
    } else if tally.full > 0 {
        RunStatus::Full
    } else {
        RunStatus::Done
    }
}

// The status of an archive that was refused when it was opened again.
fn refused_status(fault: ArchiveFault) -> RunStatus
    ensures { result ≡ refused_with fault }
{
    match fault {
        ArchiveFault::NotJournal { place } => RunStatus::Refused { place },
        ArchiveFault::Damaged { place } => RunStatus::Refused { place },
        ArchiveFault::Changed { expected, found } => RunStatus::Changed { expected, found },
        ArchiveFault::DiskFault => RunStatus::DiskFault,
        ArchiveFault::Stale | ArchiveFault::Memory => RunStatus::Memory,
    }
}

// The status of a station that didn't start.
pub(crate) fn start_status(fault: StartFault) -> RunStatus
    ensures { result ≡ started_with fault }
{
    match fault {
        StartFault::NotJournal { place } => RunStatus::Refused { place },
        StartFault::Damaged { place } => RunStatus::Refused { place },
        StartFault::DiskFault => RunStatus::DiskFault,
        StartFault::Memory => RunStatus::Memory,
    }
}
