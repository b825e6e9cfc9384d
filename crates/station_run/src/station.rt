// A station, from the opening of its archive to the closing of its lock.
ghost use Rattle.std.specs.Prelude.{◌≡◌, ℕ, ◌+◌, ◌*◌, ◌^◌, ◌≤◌, [], ◌∷◌, false, Option, All};
ghost use Rattle.std.specs.Prelude.{IfOk, IfErr, OnErr, length, vec_len, vec_capacity};
ghost use Rattle.archive_terms.specs.Archive.{IsArchive};
ghost use Rattle.disk_model.specs.Images.{Pending};
ghost use Rattle.frame_archive.specs.Faults.{RefusesDisk};
ghost use Rattle.station_config.specs.Validity.{IsSite};
ghost use Rattle.station_book.specs.State.{opened};
ghost use Rattle.station_book.specs.Origin.{opening_of};
ghost use Rattle.station_seats.specs.Seats.{IsMain, IsSingle, owns_of, reports_of, turns_of};
ghost use Rattle.frame_archive.specs.declared.fault.ArchiveFault.TheVariants as ArchiveFault;
ghost use Rattle.station_run.specs.declared.report.StartFault.TheVariants as StartFault;
ghost use Rattle.station_run.specs.Workers.{HasEnded};
ghost use Rattle.station_run.specs.Ran.{Ran, RanOver, RefusesStart, IsHistory, published_count};
ghost use Rattle.station_run.specs.Ran.{outside, LeavesDisk};

use crate::crew::Crew;
use crate::report::{RunReport, StartFault};
use crate::together::run_crew;
use antenna_core::Antenna;
use cds_time::Clock;
use disk_model::Disk;
use door_model::Door;
use frame_archive::{ArchiveFault, FrameArchive, open_archive};
use octet_core::Memory;
use record_form::Entries;
use recorder::FrameSource;
use station_book::{Book, Event, Station};
use station_config::Site;
use station_seats::{close, join_crew};
use std::alloc::Global;
use std::rt;
use std::sync::Wait;
use std::thread::Threads;
use turn_lock::{LockFault, Pass};

/// Runs a station of this site, over an archive on a disk, with a worker for each door, the
/// recorder's over the source of entries, and the antenna's. Each has so many turns, and each door
/// gives up to so many links. Random numbers are drawn from `draw` on. It hands the disk back.
pub fn run_station<
    R: Threads + Wait + rt::Clock + Sync,
    D: Disk,
    F: FrameSource,
    A: Antenna,
    G: Door,
    C: Clock,
>(
    rt: &R,
    alloc: Global,
    site: &Site,
    disk: D,
    frames: &mut F,
    antenna: &mut A,
    antenna_clock: &mut C,
    doors: &mut [G],
    clocks: &mut [C],
    turns: u64,
    links: u32,
    draw: u32,
) -> (Result<RunReport, StartFault>, D)
    requires turns { (1 ≤ turns) × (turns ≤ 2 ^ 40) }
    requires doors { (1 ≤ length doors.old) × (length doors.old ≤ 16)
        × (length clocks.old ≡ length doors.old) }
    requires site { IsSite site.now }
    ensures ran { IfOk result.0 (λ report. RanOver D.pending D.faults D.moment D.images_since D.makes
        D.fails D.fails_to_read F.answers F.faults A.sent A.faults G.shown G.faults G.Link.calls
        G.Link.faults C.readings site.now turns links draw disk result.1
        (outside frames.old antenna.old antenna_clock.old doors.old clocks.old)
        (outside frames.new antenna.new antenna_clock.new doors.new clocks.new) report) }
    ensures refused { IfErr result.0 (λ fault. RefusesStart fault (D.pending disk) (D.faults disk)
        (D.faults result.1)) }
    ensures disk { IfErr result.0 (λ fault. LeavesDisk D.pending D.moment D.images_since D.makes
        D.fails D.fails_to_read fault disk result.1) }
    ensures untouched { OnErr result.0
        (outside frames.new antenna.new antenna_clock.new doors.new clocks.new
        ≡ outside frames.old antenna.old antenna_clock.old doors.old clocks.old) }
{
    match open_archive(alloc, disk, site.capacity) {
        Ok((mut archive, entries)) => {
            let ran = run_opened(
                rt,
                alloc,
                site,
                &mut archive,
                entries,
                frames,
                antenna,
                antenna_clock,
                doors,
                clocks,
                turns,
                links,
                draw,
            );
            (ran, archive.into_disk())
        }
        Err((fault, disk)) => (Err(start_fault(fault)), disk),
    }
}

// Why a station doesn't start whose archive was refused.
fn start_fault(fault: ArchiveFault) -> StartFault
    ensures cause { (pending : Option Pending) → (before after : ℕ)
        → RefusesDisk fault pending before after → RefusesStart result pending before after }
    ensures disk { (fault ≡ ArchiveFault.DiskFault → result ≡ StartFault.DiskFault)
        × (result ≡ StartFault.DiskFault → fault ≡ ArchiveFault.DiskFault) }
{
    match fault {
        ArchiveFault::NotJournal { place } => StartFault::NotJournal { place },
        ArchiveFault::Damaged { place } => StartFault::Damaged { place },
        ArchiveFault::DiskFault => StartFault::DiskFault,
        ArchiveFault::Stale | ArchiveFault::Changed { .. } | ArchiveFault::Memory => {
            StartFault::Memory
        }
    }
}

// Runs a station over the archive that was opened.
fn run_opened<
    R: Threads + Wait + rt::Clock + Sync,
    D: Disk,
    F: FrameSource,
    A: Antenna,
    G: Door,
    C: Clock,
>(
    rt: &R,
    alloc: Global,
    site: &Site,
    archive: &mut FrameArchive<D>,
    entries: Entries,
    frames: &mut F,
    antenna: &mut A,
    antenna_clock: &mut C,
    doors: &mut [G],
    clocks: &mut [C],
    turns: u64,
    links: u32,
    draw: u32,
) -> Result<RunReport, StartFault>
    requires rests { archive.old.waiting ≡ [] }
    requires opened { archive.old.is_stale ≡ false }
    requires archive { IsArchive entries }
    requires turns { (1 ≤ turns) × (turns ≤ 2 ^ 40) }
    requires doors { (1 ≤ length doors.old) × (length doors.old ≤ 16)
        × (length clocks.old ≡ length doors.old) }
    requires site { IsSite site.now }
    ensures ran { IfOk result (λ report. Ran D.pending D.faults D.makes D.fails D.fails_to_read
        F.answers F.faults A.sent A.faults G.shown G.faults G.Link.calls G.Link.faults C.readings
        site.now turns links draw entries archive.old archive.new
        (outside frames.old antenna.old antenna_clock.old doors.old clocks.old)
        (outside frames.new antenna.new antenna_clock.new doors.new clocks.new) report) }
    ensures fault { IfErr result (λ fault. fault ≡ StartFault.Memory) }
    ensures kept { OnErr result (archive.new ≡ archive.old) }
    ensures untouched { OnErr result
        (outside frames.new antenna.new antenna_clock.new doors.new clocks.new
        ≡ outside frames.old antenna.old antenna_clock.old doors.old clocks.old) }
{
    let count = doors.len();
    let number = count as u32;
    let opening = entries.len() as u64;
    let book = Book::new(alloc, site, entries, number + 1)?;
    let (station, mut pass) = locked(alloc, book, (count as u64 + 2) * turns)?;
    let mut crew = Crew::seated(alloc, &station, &mut pass, count, turns)?;
    run_crew(
        rt,
        alloc,
        &station,
        &mut crew.recorder,
        archive,
        frames,
        &mut crew.antenna,
        antenna,
        antenna_clock,
        &mut crew.doors,
        site,
        doors,
        clocks,
        number,
        links,
        draw,
        turns,
    );
    Ok(finish(station, pass, crew, opening, turns))
}

// A book under the station's lock, and the pass that has all its turns.
fn locked(alloc: Global, book: Book, turns: u64) -> Result<(Station, Pass<Event>), Memory>
    requires turns { (1 ≤ turns) × (turns ≤ 2 ^ 62) }
    requires new { book ≡ opened book.opening }
    ensures lock { IfOk result (λ r. (r.0.origin ≡ book.opening) × (r.0.turns ≡ turns)) }
    ensures main { IfOk result (λ r. IsMain r.0 r.1 × (r.1.left ≡ turns)) }
{
    match Station::new(alloc, book, turns) {
        Ok(locked) => Ok(locked),
        Err(LockFault::Memory) => Err(Memory),
    }
}

// Joins the passes of all workers, closes the lock, and says what came of the run.
fn finish(
    station: Station,
    mut pass: Pass<Event>,
    crew: Crew,
    opening: u64,
    turns: u64,
) -> RunReport
    requires main { IsMain station pass }
    requires recorder { HasEnded station turns crew.recorder.pass
        × (crew.recorder.pass.joined ≡ []) }
    requires antenna { HasEnded station turns crew.antenna.pass
        × (crew.antenna.pass.joined ≡ [] ∷ []) }
    requires doors { All (IsSingle station) crew.doors.items }
    requires room { (crew.reports.items ≡ []) × (vec_len crew.doors ≤ vec_capacity crew.reports) }
    requires whole { pass.left + turns + turns + turns_of crew.doors.items ≡ station.turns }
    requires opening { opening ≡ length station.origin.entries }
    ensures history { IsHistory station result.pass.seen
        ([] ∷ crew.recorder.pass.own ∷ crew.antenna.pass.own ∷ [] ∷ owns_of crew.doors.items) }
    ensures published { result.published ≡ published_count station.origin result.pass.seen }
    ensures ended { (result.recording ≡ crew.recorder.ended)
        × (result.radiating ≡ crew.antenna.ended) }
    ensures reports { result.doors.items ≡ reports_of crew.doors.items }
{
    let Crew {
        recorder,
        antenna,
        doors,
        mut reports,
    } = crew;
    join_crew(
        &station,
        &mut pass,
        recorder.pass,
        antenna.pass,
        doors,
        &mut reports,
    );
    let (book, pass) = close(station, pass);
    RunReport {
        pass,
        published: book.front().saturating_sub(opening),
        recording: recorder.ended,
        radiating: antenna.ended,
        doors: reports,
    }
}
