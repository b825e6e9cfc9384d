// A step of a recorder's worker: entries are stored off the lock, and published in a turn.
ghost use Rattle.std.specs.Prelude.{◌≡◌, ◌⊎◌, ◌<◌, [], false, IfOk, IfErr, OnOk, IsErrOf};
ghost use Rattle.station_book.specs.State.{accepted, foreign};
ghost use Rattle.station_turns.specs.Turned.{IsReady, Publishes, Leaves};
ghost use Rattle.recorder_turns.specs.Steps.{StepsOnce, counts_of, worker};
ghost use Rattle.recorder_turns.specs.Recording.{Breaks};
ghost use Rattle.recorder_turns.specs.declared.recording_fault.RecordingFault.TheVariants as RecordingFault;

use crate::recording_fault::RecordingFault;
use disk_model::Disk;
use frame_archive::FrameArchive;
use recorder::{FrameSource, RecordFault, Recorded, record_step};
use station_book::{Event, PublishFault, Station};
use station_turns::laws::gains_compose;
use std::alloc::Global;
use std::sync::Wait;
use turn_lock::Pass;

// What a step stored and dropped, and whether the source's end came.
#[derive(Clone, Copy)]
pub(crate) struct StepCounts {
    pub stored: u64,
    pub refused: u64,
    pub full: u64,
    pub last: bool,
}

impl StepCounts {
    // Whether no entry came.
    pub fn is_empty(&self) -> bool {
        self.stored == 0 && self.refused == 0 && self.full == 0
    }
}

// Publishes what a step stored, in a turn.
fn publish_stored<R: Wait>(
    rt: &R,
    station: &Station,
    pass: &mut Pass<Event>,
    recorded: Recorded,
) -> Result<StepCounts, RecordingFault>
    requires ready { IsReady station.now pass.old }
    requires left { 0 < pass.old.left }
    ensures ok { OnOk result (Publishes station.now recorded.entries accepted pass.old pass.new) }
    ensures counts { IfOk result (λ counts. counts ≡ counts_of recorded) }
    ensures foreign { IsErrOf result RecordingFault.Foreign
        → Publishes station.now recorded.entries foreign pass.old pass.new }
    ensures memory { IsErrOf result RecordingFault.Memory → Leaves station.now pass.old pass.new }
    ensures faults { IfErr result (λ fault. (fault ≡ RecordingFault.Foreign)
        ⊎ (fault ≡ RecordingFault.Memory)) }
{
    let step = StepCounts {
        stored: recorded.entries.len() as u64,
        refused: recorded.refused,
        full: recorded.full,
        last: recorded.last,
    };
    match station_turns::publish(rt, station, pass, recorded.entries) {
        Ok(()) => Ok(step),
        Err(PublishFault::Foreign) => Err(RecordingFault::Foreign),
        Err(PublishFault::Memory) => Err(RecordingFault::Memory),
    }
}

// Has a step of the recorder made, and publishes what it stored.
pub(crate) fn step<R: Wait, D: Disk, F: FrameSource>(
    rt: &R,
    alloc: Global,
    station: &Station,
    pass: &mut Pass<Event>,
    archive: &mut FrameArchive<D>,
    frames: &mut F,
) -> Result<StepCounts, RecordingFault>
    requires ready { IsReady station.now pass.old }
    requires left { 0 < pass.old.left }
    requires rests { archive.old.waiting ≡ [] }
    requires opened { archive.old.is_stale ≡ false }
    ensures ok { IfOk result (λ counts. StepsOnce D.pending D.makes D.fails F.answers station.now
        counts (worker archive.old frames.old pass.old) (worker archive.new frames.new pass.new)) }
    ensures rests { OnOk result (archive.new.waiting ≡ []) }
    ensures opened { OnOk result (archive.new.is_stale ≡ false) }
    ensures err { IfErr result (λ fault. Breaks D.pending D.faults D.makes D.fails D.fails_to_read
        F.answers F.faults station.now fault (worker archive.old frames.old pass.old)
        (worker archive.new frames.new pass.new)) }
{
    gains_compose();
    match record_step(alloc, archive, frames) {
        Ok(recorded) => publish_stored(rt, station, pass, recorded),
        Err(RecordFault::SourceFault) => Err(RecordingFault::SourceFault),
        Err(RecordFault::DiskFault) => Err(RecordingFault::DiskFault),
        Err(RecordFault::Refused(fault)) => Err(RecordingFault::Refused(fault)),
        Err(RecordFault::Memory) => Err(RecordingFault::Memory),
    }
}
