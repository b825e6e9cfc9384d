// What the sessions of every run make of STARTs, as the contract of a function that does nothing.
ghost use Rattle.run_rounds.specs.Rounds.{RunsHaveRounds};
ghost use Rattle.run_rounds.specs.Laws.{Laws};

use antenna_core::Antenna;
use cds_time::Clock;
use disk_model::Disk;
use door_model::Door;
use line_events::laws::progress_is_of_its_door;
use recorder::FrameSource;
use run_events::laws::starts_stand_beside;
use session_events::laws::{each_start_is_the_worlds, what_a_round_makes_may_come};
use session_laws::laws::{
    each_start_hands_over, only_a_started_service_sends, what_a_session_sees_is_published,
};

/// A run that is a list of a world's events, as `run_events` has it, is one with what its sessions
/// make of STARTs in their places too: behind each answer event what its round makes of the door's
/// START, and behind each quit the end of the one that goes on. The other events are the run's. All
/// may come, and they lead to the same world as those but for its STARTs; and the headline holds
/// behind each front of them. The STARTs of each door are those that its sessions' rounds leave,
/// and each START of RAF or RCF of a session is one of them.
pub fn sessions_make_starts<D: Disk, F: FrameSource, A: Antenna, G: Door, C: Clock>()
    ensures { RunsHaveRounds D.pending D.faults D.moment D.images_since D.makes D.fails
        D.fails_to_read F.answers F.faults A.sent A.faults G.shown G.faults G.Link.calls
        G.Link.faults C.readings }
{
    rests_on();
}

// The laws of STARTs and of sessions' rounds, and those below.
fn rests_on()
    ensures { Laws }
{
    run_events::laws::rests_on();
    progress_is_of_its_door();
    what_a_round_makes_may_come();
    each_start_is_the_worlds();
    starts_stand_beside();
    what_a_session_sees_is_published();
    each_start_hands_over();
    only_a_started_service_sends();
}
