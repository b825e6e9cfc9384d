// What holds for every script. A law's function does nothing: its contract is the law.
ghost use Rattle.std.specs.Prelude.{ℕ, List};
ghost use Rattle.script_commands.specs.Lawful.{IsLawful, SessionLaws};
ghost use Rattle.script_commands.specs.Laws.{Laws};

use connection_events::laws::starts_are_in_the_world;
use connection_laws::laws::{connections_lose_nothing, each_start_is_delivered};
use forward_counts::laws::reports_are_counted;
use isp1_tml::laws::spelled_is_read;
use piece_laws::laws::pieces_are_octets;
use script_world::laws::a_script_is_events;
use session_laws::laws::{a_quiet_session_serves_on, a_session_reports};
use station_desk::laws::a_start_is_read;
use station_law::laws::{connections_are_sessions, transcript_law};

/// What `drill` writes for a script is a function of the script, and of that text all this holds: the
/// lines are events of a world, for which the headline holds at each moment; and each START and each
/// connection in it are those of the definitions.
pub fn every_script_is_lawful()
    ensures { (script : List ℕ) → IsLawful script }
{
    rests_on();
    of_sessions();
    reports_are_counted();
}

// The laws on lines, worlds, connections and messages.
fn rests_on()
    ensures { Laws }
{
    transcript_law();
    a_script_is_events();
    connections_are_sessions();
    connections_lose_nothing();
    each_start_is_delivered();
    starts_are_in_the_world();
    a_start_is_read();
    pieces_are_octets();
    spelled_is_read();
}

// What holds for every session.
fn of_sessions()
    ensures { SessionLaws }
{
    a_session_reports();
    a_quiet_session_serves_on();
}
