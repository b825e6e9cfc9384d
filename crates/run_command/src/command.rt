// The command.
ghost use Rattle.std.specs.Prelude.{◌≡◌, ◌^◌, ◌≤◌, IfSome, IfNone, length};
ghost use Rattle.station_config.specs.Validity.{IsSite};
ghost use Rattle.station_run.specs.declared.report.RunReport.{RunReport};
ghost use Rattle.station_run.specs.declared.report.StartFault.{StartFault};
ghost use Rattle.station_run.specs.Ran.{RanOver, RefusesStart, LeavesDisk, outside};
ghost use Rattle.station_config.specs.declared.site.Site.{Site};
ghost use Rattle.run_laws.specs.Lossless.{IsLossless};
ghost use Rattle.run_command.specs.Configured.{Configures};
ghost use Rattle.run_command.specs.Ends.{EndsBefore, EndsBehind, NotStarted};
ghost use Rattle.run_command.specs.Statuses.{started_with};
ghost use Rattle.run_command.specs.declared.status.RunStatus.{RunStatus};

use crate::ending::start_status;
use crate::site::read_site;
use crate::telling::{tell, tell_run};
use antenna_core::Antenna;
use cds_time::Clock;
use disk_model::Disk;
use door_model::Door;
use octet_core::{Sink, Source};
use recorder::FrameSource;
use run_laws::laws::a_run_loses_nothing;
use station_book::Event;
use station_config::Site;
use station_run::run_station;
use std::alloc::Global;
use std::rt;
use std::sync::Wait;
use std::thread::Threads;
use turn_lock::Pass;

// Runs a station of this site, and writes what came of it.
fn run_site<
    R: Threads + Wait + rt::Clock + Sync,
    O: Sink,
    D: Disk,
    F: FrameSource,
    A: Antenna,
    G: Door,
    C: Clock,
>(
    rt: &R,
    alloc: Global,
    site: &Site,
    output: &mut O,
    disk: D,
    frames: &mut F,
    antenna: &mut A,
    antenna_clock: &mut C,
    doors: &mut [G],
    clocks: &mut [C],
    turns: u64,
    links: u32,
    draw: u32,
) -> (u8, D, Option<Pass<Event>>)
    requires turns { (1 ≤ turns) × (turns ≤ 2 ^ 40) }
    requires doors { (1 ≤ length doors.old) × (length doors.old ≤ 16)
        × (length clocks.old ≡ length doors.old) }
    requires site { IsSite site.now }
    ensures started { IfSome result.2 (λ pass. (report : RunReport) × (report.pass ≡ pass)
        × EndsBehind (O.written output.old) (O.written output.new) (O.faults output.old)
        (O.faults output.new) report result.0
        × RanOver D.pending D.faults D.moment D.images_since D.makes D.fails D.fails_to_read
        F.answers F.faults A.sent A.faults G.shown G.faults G.Link.calls G.Link.faults C.readings
        site.now turns links draw disk result.1
        (outside frames.old antenna.old antenna_clock.old doors.old clocks.old)
        (outside frames.new antenna.new antenna_clock.new doors.new clocks.new) report
        × IsLossless (D.pending disk) report) }
    ensures not_started { IfNone result.2 ((fault : StartFault)
        × EndsBefore (O.written output.old) (O.written output.new) (O.faults output.old)
        (O.faults output.new) (started_with fault) result.0
        × RefusesStart fault (D.pending disk) (D.faults disk) (D.faults result.1)
        × LeavesDisk D.pending D.moment D.images_since D.makes D.fails D.fails_to_read fault disk
        result.1) }
    ensures untouched { IfNone result.2
        (outside frames.new antenna.new antenna_clock.new doors.new clocks.new
        ≡ outside frames.old antenna.old antenna_clock.old doors.old clocks.old) }
{
    a_run_loses_nothing::<D, F, A, G, C>();
    let (ran, disk) = run_station(
        rt,
        alloc,
        site,
        disk,
        frames,
        antenna,
        antenna_clock,
        doors,
        clocks,
        turns,
        links,
        draw,
    );
    match ran {
        Ok(report) => {
            let exit = tell_run(alloc, &report, output);
            (exit, disk, Some(report.pass))
        }
        Err(fault) => (tell(alloc, start_status(fault), output), disk, None),
    }
}

/// Reads a configuration from the input, runs its station over the archive on the disk, with a
/// worker for each door, the recorder's and the antenna's, and writes what they did and the line of
/// the status. Each worker has so many turns, and each door gives up to so many links; each door has
/// the clock at its place. It answers the exit code and hands the disk back, with the closed pass
/// where the workers were started.
pub fn run<
    R: Threads + Wait + rt::Clock + Sync,
    I: Source,
    O: Sink,
    D: Disk,
    F: FrameSource,
    A: Antenna,
    G: Door,
    C: Clock,
>(
    rt: &R,
    alloc: Global,
    input: &mut I,
    output: &mut O,
    disk: D,
    frames: &mut F,
    antenna: &mut A,
    antenna_clock: &mut C,
    doors: &mut [G],
    clocks: &mut [C],
    turns: u64,
    links: u32,
    draw: u32,
) -> (u8, D, Option<Pass<Event>>)
    requires turns { (1 ≤ turns) × (turns ≤ 2 ^ 40) }
    requires doors { (1 ≤ length doors.old) × (length doors.old ≤ 16)
        × (length clocks.old ≡ length doors.old) }
    ensures started { IfSome result.2 (λ pass. (site : Site) × (report : RunReport)
        × (report.pass ≡ pass) × IsSite site × Configures (I.left input.old) site
        × EndsBehind (O.written output.old) (O.written output.new) (O.faults output.old)
        (O.faults output.new) report result.0
        × RanOver D.pending D.faults D.moment D.images_since D.makes D.fails D.fails_to_read
        F.answers F.faults A.sent A.faults G.shown G.faults G.Link.calls G.Link.faults C.readings
        site turns links draw disk result.1
        (outside frames.old antenna.old antenna_clock.old doors.old clocks.old)
        (outside frames.new antenna.new antenna_clock.new doors.new clocks.new) report
        × IsLossless (D.pending disk) report) }
    ensures not_started { IfNone result.2 ((own : RunStatus) × EndsBefore (O.written output.old)
        (O.written output.new) (O.faults output.old) (O.faults output.new) own result.0
        × NotStarted D.pending D.faults D.moment D.images_since D.makes D.fails D.fails_to_read
        (I.left input.old) (I.faults input.old) (I.faults input.new) disk result.1 own) }
    ensures untouched { IfNone result.2
        (outside frames.new antenna.new antenna_clock.new doors.new clocks.new
        ≡ outside frames.old antenna.old antenna_clock.old doors.old clocks.old) }
{
    match read_site(alloc, input) {
        Ok(site) => run_site(
            rt,
            alloc,
            &site,
            output,
            disk,
            frames,
            antenna,
            antenna_clock,
            doors,
            clocks,
            turns,
            links,
            draw,
        ),
        Err(status) => (tell(alloc, status, output), disk, None),
    }
}
