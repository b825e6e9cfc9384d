// What holds of every run of a station, each law the contract of a function that does nothing.
ghost use Rattle.run_events.specs.Runs.{RunsAreEvents};
ghost use Rattle.run_events.specs.Beside.{StartsStandBeside};
ghost use Rattle.run_events.specs.Laws.{Laws};

use antenna_core::Antenna;
use archive_terms::laws::{archive_grows, follows_by_last_times};
use cds_time::Clock;
use disk_model::Disk;
use door_model::Door;
use recorder::FrameSource;
use run_laws::laws::a_run_loses_nothing;
use station_book::Event;
use station_world::laws::{archive_calls_are_events, at_each_moment, calls_are_events};
use turn_lock::laws::made_up_weighs_as_much;

/// A run of a valid site over a disk that tells, as `station_run` tells it, is a list of events of
/// each world in which nothing goes on and for one of whose file's lists the disk's content stands.
/// Its first event opens the archive. The calls of the book are the closed history. Right before
/// each publishing stands what the recorder's step did to store what it publishes, and right before
/// the recorder's last turn what it did of a step that it didn't end; right behind each take that
/// radiated stands the send of its octets, good or not. All may come, and at the end the archive
/// holds the world's file, and the antenna was sent what it tells. So the headline holds at
/// each moment of them, whatever comes after it.
pub fn a_run_is_events<D: Disk, F: FrameSource, A: Antenna, G: Door, C: Clock>()
    ensures { RunsAreEvents D.pending D.faults D.moment D.images_since D.makes D.fails
        D.fails_to_read F.answers F.faults A.sent A.faults G.shown G.faults G.Link.calls
        G.Link.faults C.readings }
{
    rests_on();
    archive_calls_are_events::<D>();
    a_run_loses_nothing::<D, F, A, G, C>();
}

/// Events of STARTs disturb no other event: where all others of a list may come, and each event of
/// a START where it stands, all may come, and lead to the same world but for its STARTs. So what a
/// session's rounds do may be put at their answer events.
pub fn starts_stand_beside()
    ensures { StartsStandBeside }
{}

/// The laws of archives, of the lock and of worlds that those of runs rest on.
pub fn rests_on()
    ensures { Laws }
{
    archive_grows();
    follows_by_last_times();
    made_up_weighs_as_much::<Event>();
    calls_are_events();
    at_each_moment();
}
