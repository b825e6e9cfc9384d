// What sessions and a book come to together. A law's function does nothing: its contract is the law.
ghost use Rattle.session_laws.specs.Losing.{NothingIsLost, BeginsFree};
ghost use Rattle.session_laws.specs.Deliveries.{AreVisits, SeesPublished, StartsDeliver};
ghost use Rattle.session_laws.specs.Deliveries.{CompleteStarts, TimelyStarts, DueIsOffered};
ghost use Rattle.session_laws.specs.Starts.{StartsBegin, BegunStands};
ghost use Rattle.session_laws.specs.Instances.{SessionsAreKept};
ghost use Rattle.session_laws.specs.Handing.{StartsHandOver, OnlyStartedSend};
ghost use Rattle.session_laws.specs.Fitting.{HeldFits};
ghost use Rattle.session_laws.specs.Owing.{RoundsAreTaken, OwedComes, ReadyComes};
ghost use Rattle.session_laws.specs.Quiet.{QuietServesOn};
ghost use Rattle.session_laws.specs.Reports.{ReportsComeInTime, RequestsAreTold, FramesAreCounted};
ghost use Rattle.session_laws.specs.Reports.{ReportsSay, TellsInBlock};

use assoc_core::laws as association;
use return_core::laws as delivery;
use session_core::laws as session;
use station_book::laws as book;

/// In a legal history of a site's book whose events at a door begin with those of a session's
/// rounds, from where the door has no instance on, the book answers none of these Lost: what the
/// session asks always fits what the door has bound. So no session ends with OtherReason, which a
/// lost reply alone leads to.
pub fn nothing_is_lost()
    ensures { NothingIsLost }
{
    association::binds_its_own();
    book::other_doors_leave_a_door();
    session::a_service_leaves_its_session();
}

/// In a new book of a site no door has an instance, and none has one that has asked nothing yet. A run
/// of the forward service is started only where some door has its instance.
pub fn a_door_begins_free()
    ensures { BeginsFree }
{
    book::other_doors_leave_a_door();
}

/// In rounds in which a session serves, each is a visit of its delivery: the looks are those that
/// the delivery wants; each message that the link took whole is that of the buffer, one of the bound
/// service, which the delivery hands over in that visit; and what the session drops is what it
/// discards.
pub fn a_sessions_rounds_are_its_deliverys()
    ensures { AreVisits }
{
    session::a_service_leaves_its_session();
}

/// In a legal history whose events at a door begin with those of a session's rounds, the looks of
/// these are looks at the entries that are published behind it, and of each list that begins with
/// these, each at a front of its own, and fronts don't fall.
pub fn what_a_session_sees_is_published()
    ensures { SeesPublished }
{
    book::published_entries_grow();
    delivery::a_wanted_look_is_one_at_its_front();
}

/// Behind a round that starts a session's service, with a START that is answered positively, the
/// delivery of that START begins, on the terms of its instance, for the frames and times that its
/// message asks for, and from a place that the round's look saw; and it stands for no rounds yet.
pub fn a_start_begins_a_delivery()
    ensures begins { StartsBegin }
    ensures stands { BegunStands }
{
    session::a_service_leaves_its_session();
}

/// Where the delivery of a START stood for rounds, it stands for these and those of the session's
/// rounds behind them, by the links' answers: what the link took whole is, message by message, what
/// the delivery hands over of the published entries, and what was dropped is what it discards.
pub fn what_a_start_hands_over_is_delivered()
    ensures { StartsDeliver }
{
    session::a_service_leaves_its_session();
    delivery::each_visit_stands();
}

/// What a complete or offline START of a session handed over is, in order and each once, the first
/// of what it picks, of the archive and of each longer one; and end of data stands last, behind all
/// that it picks, and only where the stop is closed.
pub fn a_complete_start_hands_over_what_it_picks()
    ensures { CompleteStarts }
{
    session::a_service_leaves_its_session();
    delivery::each_visit_stands();
    delivery::complete_rounds();
}

/// What a timely START of a session handed over and discarded is, in order, the first of what it
/// picks; each discard is told by a backlog in front of the next buffer that is handed over, and no
/// other one; and end of data stands behind all that it picks, handed over or discarded.
pub fn a_timely_start_tells_what_it_discards()
    ensures { TimelyStarts }
{
    session::a_service_leaves_its_session();
    delivery::each_visit_stands();
    delivery::timely_rounds();
}

/// Behind any rounds of a session, one whose service isn't started has nothing to offer, and the
/// delivery that a bound return service keeps has the mode, the size and the latency limit that the
/// site gives its instance.
pub fn a_session_keeps_its_instance()
    ensures { SessionsAreKept }
{}

/// What a delivery holds that stands for rounds over an archive goes into one message, where its
/// buffers have at most 1,000 items: so a buffer that is due is never left out for what it holds.
pub fn what_is_held_fits()
    ensures { HeldFits }
{
    buffer_message::laws::buffers_fit();
    buffer_message::laws::what_is_stored_is_in_range();
    buffer_message::laws::what_is_said_is_told();
    archive_terms::laws::buffer_takes_what_fits();
}

/// In a round in which a session serves and no block waits, neither of an earlier round nor of its
/// own, the buffer that its START is due is offered, and nothing else.
pub fn a_due_buffer_is_offered()
    ensures { DueIsOffered }
{
    what_is_held_fits();
    session::a_service_leaves_its_session();
    delivery::a_step_offers_what_is_due();
}

/// What a START is owed comes. In rounds in which its session serves and its link takes each offer
/// whole, each round takes the buffer that is due, whatever else it offers (`taken`); so each hands
/// over the next of the buffers that were ready before, while the archive grows; and where it stands
/// still, exactly these, the last one once it is late, and then end of data where the stop is closed
/// (`owed`). To a complete or offline START a round whose link doesn't take each offer costs that
/// round and no more (`ready`).
pub fn what_a_session_owes_comes()
    ensures taken { RoundsAreTaken }
    ensures owed { OwedComes }
    ensures ready { ReadyComes }
{
    what_is_held_fits();
    session::a_service_leaves_its_session();
    delivery::each_visit_stands();
    delivery::what_is_owed_comes();
    archive_terms::laws::few_buffers_are_left();
}

/// A session that serves goes on serving over rounds in which its peer says nothing but heartbeats,
/// its link is open and takes each offer whole, and the dead timer doesn't run out.
pub fn a_quiet_session_serves_on()
    ensures { QuietServesOn }
{
    session::a_service_leaves_its_session();
}

/// A session tells status reports in time, and they say what came. Between two reports of a running
/// cycle no round that may tell one is at or past its seconds without one, and a report at once moves
/// the next one (`in_time`); a request is followed by a report in its round (`asked`). The counts are
/// those of the frames handed over since the BIND, of which those of quality 0 are without an error
/// (`counts`); the locks and the production status are those of the round's look (`say`). What is
/// told unasked, a report or a notice, is in the block that the round offers (`told`).
pub fn a_session_reports()
    ensures in_time { ReportsComeInTime }
    ensures asked { RequestsAreTold }
    ensures counts { FramesAreCounted }
    ensures say { ReportsSay }
    ensures told { TellsInBlock }
{
    session::a_service_leaves_its_session();
}

/// What each START of a session of a valid site hands over, wherever it stands among the rounds, is
/// what *Delivery* of what its message asks for, on the terms of its instance, hands over of the
/// archive that the rounds see.
pub fn each_start_hands_over()
    ensures { StartsHandOver }
{
    a_session_keeps_its_instance();
    a_start_begins_a_delivery();
    what_a_start_hands_over_is_delivered();
    a_complete_start_hands_over_what_it_picks();
    a_timely_start_tells_what_it_discards();
    a_due_buffer_is_offered();
    what_a_session_owes_comes();
    delivery::a_wanted_look_is_one_at_its_front();
}

/// A round of a session hands over a message of its service, or drops one, only where the service is
/// started before it and still is behind it.
pub fn only_a_started_service_sends()
    ensures { OnlyStartedSend }
{
    a_session_keeps_its_instance();
    session::a_service_leaves_its_session();
}
