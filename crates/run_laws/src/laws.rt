// What holds of every run of a station, as the contracts of functions that do nothing.
ghost use Rattle.std.specs.Prelude.{ℕ};
ghost use Rattle.disk_model.specs.Calls.{OnlyCalls};
ghost use Rattle.station_config.specs.declared.site.Site.{Site};
ghost use Rattle.station_run.specs.Ran.{Outside, RanOver, LeavesDisk};
ghost use Rattle.station_run.specs.declared.report.RunReport.{RunReport};
ghost use Rattle.station_run.specs.declared.report.StartFault.{StartFault};
ghost use Rattle.run_laws.specs.Lossless.{RunsAreLossless};
ghost use Rattle.run_laws.specs.Laws.{Laws};

use antenna_core::Antenna;
use archive_terms::laws::archive_grows;
use cds_time::Clock;
use disk_model::Disk;
use door_model::Door;
use recorder::FrameSource;
use session_laws::laws::{a_door_begins_free, nothing_is_lost};
use station_book::Event;
use station_book::laws::{
    a_door_has_one_instance, a_site_has_one_forward_service, other_doors_leave_a_door,
};
use turn_lock::laws::made_up_weighs_as_much;

/// In the history of a run, as `station_run` tells it of a valid site, no ask of a session was
/// answered Lost; and where the disk told what it held, no publishing was answered Foreign, so the
/// recorder didn't end so either.
pub fn a_run_loses_nothing<D: Disk, F: FrameSource, A: Antenna, G: Door, C: Clock>()
    ensures { RunsAreLossless D.pending D.faults D.moment D.images_since D.makes D.fails
        D.fails_to_read F.answers F.faults A.sent A.faults G.shown G.faults G.Link.calls
        G.Link.faults C.readings }
{
    rests_on();
}

/// Nothing but calls of its disk happens to it over a run, nor where a station doesn't start: what
/// no call of a disk changes is as it was.
pub fn a_run_only_calls_its_disk<D: Disk, F: FrameSource, A: Antenna, G: Door, C: Clock>()
    ensures ran { (site : Site) (turns links draw : ℕ) (disk disk_now : D)
        (old new : Outside F A G C) (report : RunReport)
        → RanOver D.pending D.faults D.moment D.images_since D.makes D.fails D.fails_to_read
        F.answers F.faults A.sent A.faults G.shown G.faults G.Link.calls G.Link.faults C.readings
        site turns links draw disk disk_now old new report
        → OnlyCalls D.makes D.fails D.fails_to_read disk disk_now }
    ensures refused { (fault : StartFault) (disk disk_now : D)
        → LeavesDisk D.pending D.moment D.images_since D.makes D.fails D.fails_to_read fault disk
        disk_now → OnlyCalls D.makes D.fails D.fails_to_read disk disk_now }
{}

// The laws of sessions, of books and of the lock.
fn rests_on()
    ensures { Laws }
{
    nothing_is_lost();
    a_door_begins_free();
    a_door_has_one_instance();
    other_doors_leave_a_door();
    a_site_has_one_forward_service();
    archive_grows();
    made_up_weighs_as_much::<Event>();
}
