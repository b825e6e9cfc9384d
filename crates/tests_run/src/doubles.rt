// A station with all that is outside of it in memory, but for its doors.
ghost use Rattle.std.specs.Prelude.{◌≡◌, ◌≤◌, length};

use antenna_core::AntennaSim;
use cds_time::{Cds, MemoryClock, Rest};
use disk_model::MemoryDisk;
use door_model::Door;
use octet_core::{MemorySink, MemorySource, Octets};
use record_form::Entry;
use recorder::MemoryFrames;
use run_command::run;
use sle_numbers::FrameQuality;
use std::alloc::{AllocError, Global};
use std::rt;
use std::sync::Wait;
use std::thread::Threads;

const TURNS: u64 = 4_000_000;

// A site with an instance of RAF.
const SITE: &[u8] = b"peer MOC none sha1 60 000000000000\n\
    raf sagr=1.spack=P.rsl-fg=1.raf=onlc1 MOC complete 1 5 60\n";

// A file of no entries.
const NEW_FILE: &[u8] = b"SLEA\x00\x00\x00\x01\x00";

const AT: Cds = Cds {
    days: 20_000,
    millis: 1_000,
    rest: Rest::Micros(0),
};

/// A clock that stands at the epoch.
pub fn clock_of(alloc: Global) -> MemoryClock {
    MemoryClock::new(Vec::new(alloc))
}

// A source that gives one frame and then ends.
fn one_frame(alloc: Global) -> Result<MemoryFrames, AllocError> {
    let mut frames = MemoryFrames::new(alloc, Vec::new(alloc));
    let frame = Entry::Frame {
        ert: AT,
        quality: FrameQuality::Good,
        antenna: Octets::copy_of(alloc, b"A")?,
        lost: 0,
        octets: Octets::copy_of(alloc, b"\x00\x10\xa1")?,
    };
    if !frame.is_valid() {
        return Err(AllocError);
    }
    frames.arrive(frame)?;
    frames.end();
    Ok(frames)
}

/// The exit code of a run over these doors, to which one frame is fed, and what it writes.
pub fn run_over<R: Threads + Wait + rt::Clock + Sync, G: Door>(
    rt: &R,
    alloc: Global,
    doors: &mut [G],
    clocks: &mut [MemoryClock],
) -> Result<(u8, MemorySink), AllocError>
    requires { (1 ≤ length doors.old) × (length doors.old ≤ 16)
        × (length clocks.old ≡ length doors.old) }
{
    let mut input = MemorySource::new(Octets::copy_of(alloc, SITE)?, Vec::new(alloc));
    let mut output = MemorySink::new(alloc, Vec::new(alloc));
    let disk = MemoryDisk::holding(alloc, NEW_FILE)?;
    let mut frames = one_frame(alloc)?;
    let mut antenna = AntennaSim::new(alloc, Vec::new(alloc));
    let (exit, _, _) = run(
        rt,
        alloc,
        &mut input,
        &mut output,
        disk,
        &mut frames,
        &mut antenna,
        &mut clock_of(alloc),
        doors,
        clocks,
        TURNS,
        5,
        1,
    );
    Ok((exit, output))
}
