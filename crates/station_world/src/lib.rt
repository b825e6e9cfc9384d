// The world of a station, event by event, and the headline of every list of events.
//
// A world is the archive's file, the lives of the station from one power failure to the next, the
// clock and the antenna. `laws::headline_law` says what holds behind every list of events and
// behind every longer one, `laws::what_was_done_stays` that nothing that was done is undone. The
// calls of `archive`, `laws::calls_are_events` and `laws::a_desk_start_is_events` say which events
// the station's own calls are. So a new part of the station owes one lemma, that what it does is a
// list of events, and the headline holds of it.
//
// The laws run nothing. A call of `archive` costs what the archive's call does.
#![tactic(auto)]

pub mod archive;
pub mod laws;
