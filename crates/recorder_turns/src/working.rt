// The recorder's worker.
ghost use Rattle.std.specs.Prelude.{◌≡◌, ◌<◌, ◌≤◌, [], false, OnOk};
ghost use Rattle.station_turns.specs.Turned.{IsReady};
ghost use Rattle.recorder_turns.specs.Steps.{worker};
ghost use Rattle.recorder_turns.specs.Recording.{Records};

use crate::recording_fault::RecordingFault;
use crate::step::{StepCounts, step};
use crate::tally::Tally;
use disk_model::Disk;
use frame_archive::FrameArchive;
use recorder::FrameSource;
use station_book::{Event, Station};
use station_turns::laws::gains_compose;
use std::alloc::Global;
use std::rt::Clock;
use std::sync::Wait;
use turn_lock::Pass;

// Sleeps behind a step to which no entry came.
fn rest<R: Clock>(rt: &R, step: &StepCounts) {
    if step.is_empty() {
        station_turns::pause(rt);
    }
}

/// Stores what a source gives and publishes it, step by step, until the source's end or until one
/// turn is left. A step polls up to 256 entries and stores them as one batch with no turn open;
/// what the archive has then acknowledged is published in one turn, also where it is nothing. Behind
/// a step to which nothing came the worker sleeps for five milliseconds.
pub fn recording<R: Wait + Clock, D: Disk, F: FrameSource>(
    rt: &R,
    alloc: Global,
    station: &Station,
    pass: &mut Pass<Event>,
    archive: &mut FrameArchive<D>,
    frames: &mut F,
) -> Result<Tally, RecordingFault>
    requires ready { IsReady station.now pass.old }
    requires left { 0 < pass.old.left }
    requires rests { archive.old.waiting ≡ [] }
    requires opened { archive.old.is_stale ≡ false }
    ensures ready { IsReady station.now pass.new }
    ensures records { Records D.pending D.faults D.makes D.fails D.fails_to_read F.answers F.faults
        station.now result (worker archive.old frames.old pass.old)
        (worker archive.new frames.new pass.new) }
    ensures left { 1 ≤ pass.new.left }
    ensures rests { OnOk result (archive.new.waiting ≡ []) }
    ensures opened { OnOk result (archive.new.is_stale ≡ false) }
{
    gains_compose();
    let mut tally = Tally::none();
    'steps: while pass.left() > 1 {
        match step(rt, alloc, station, pass, archive, frames) {
            Ok(made) => {
                tally.add(&made);
                if made.last {
                    return Ok(tally);
                }
                rest(rt, &made);
            }
            Err(fault) => return Err(fault),
        }
    }
    Err(RecordingFault::TurnsSpent)
}
