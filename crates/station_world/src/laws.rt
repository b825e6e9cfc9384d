// Laws of the world, each the contract of an empty function: a caller has the law by the call.
ghost use Rattle.std.specs.Prelude.{◌≡◌, ◌≤◌, List, ◌++◌, length};
ghost use Rattle.archive_terms.specs.Archive.{Entry, IsArchive};
ghost use Rattle.archive_terms.specs.Delivery.{Terms};
ghost use Rattle.archive_terms.specs.Rounds.{Round, last_front};
ghost use Rattle.return_core.specs.Course.{Course};
ghost use Rattle.return_core.specs.Standing.{StandsFor};
ghost use Rattle.station_world.specs.Laws.{Laws};
ghost use Rattle.station_world.specs.World.{World, Event};
ghost use Rattle.station_world.specs.Headline.{Headline, HeadlineLaw};
ghost use Rattle.station_world.specs.Stays.{LivesGoOn, WhatWasDoneStays, AtEachMoment};
ghost use Rattle.station_world.specs.Calls.{CallsAreEvents, DeskIsEvents};
ghost use Rattle.station_world.specs.Archives.{ArchiveLaw};

use disk_model::Disk;

/// The headline, over every interleaving of frames, operations, clock readings, stalls, aborts,
/// crashes within any write and restarts: what each START of a complete or offline instance hands
/// its link is a prefix of what it admits, end of data only after all; a timely one omits exactly
/// the buffers that it notifies; CLTUs radiate at most once, in order, within their windows; the
/// notices of each run are told in order, each once, at its door; a recovery keeps a prefix that
/// holds every acknowledged entry. What was handed over stays right for whatever a later recovery
/// finds.
pub fn headline_law()
    ensures { HeadlineLaw }
{
    rests_on();
}

/// A later world has the lives of an earlier one, and each START has done what it had done.
pub fn what_was_done_stays()
    ensures { WhatWasDoneStays }
{
    rests_on();
}

/// At each moment of events that follow others, and whatever comes after it, the headline holds,
/// and what was done stays.
pub fn at_each_moment()
    ensures headline { (w : World) (events : List Event) → AtEachMoment Headline w events }
    ensures stays { (w : World) (events : List Event) → AtEachMoment LivesGoOn w events }
{
    headline_law();
    what_was_done_stays();
}

/// Events of the book that publish nothing are events of the world, at any life that goes on.
pub fn calls_are_events()
    ensures { CallsAreEvents }
{}

/// A START of the desk is events of the world, and what it hands over is what that START does.
pub fn a_desk_start_is_events()
    ensures { DeskIsEvents }
{
    rests_on();
}

/// The calls of an archive, by what they ensure, are events of the world whose file it holds; and
/// each image of its disk, at every moment, stands for one of that file's lists.
pub fn archive_calls_are_events<D: Disk>()
    ensures { ArchiveLaw D.pending }
{
    archive_terms::laws::follows_by_last_times();
    gate_journal::laws::a_file_stands_for_one_list();
}

/// A delivery that stands for rounds over an archive does so over each longer one, so that what is
/// published between two rounds of a START changes nothing of it. It stands here as `return_core`
/// has no such law.
pub fn a_delivery_stands_as_the_archive_grows()
    ensures { (c : Course) (t : Terms) (a b : List Entry) (rounds : List Round)
        → StandsFor c t a rounds → last_front t.selection.first rounds ≤ length a
        → IsArchive (a ++ b) → StandsFor c t (a ++ b) rounds }
{}

// The laws of the archive, of deliveries and of histories.
fn rests_on()
    ensures { Laws }
{
    archive_terms::laws::archive_grows();
    archive_terms::laws::complete_delivery();
    archive_terms::laws::timely_delivery();
    archive_terms::laws::continuity_stays();
    archive_terms::laws::offline_rounds();
    station_book::laws::published_entries_grow();
    station_book::laws::lawful_radiation();
    station_book::laws::nothing_radiates_twice();
    station_book::laws::notices_are_told_in_turn();
}
