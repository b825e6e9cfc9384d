// Laws of a session's rounds, each the contract of an empty function: a caller has the law by the call.
ghost use Rattle.session_events.specs.Rounds.{RoundsMayCome};
ghost use Rattle.session_events.specs.Starts.{StartsAreThere};

use session_laws::laws::{a_session_keeps_its_instance, a_start_begins_a_delivery};

/// What a round makes of its door's START may come in a world that has published what the round saw,
/// and is made at that front.
pub fn what_a_round_makes_may_come()
    ensures { RoundsMayCome }
{}

/// Each START among the rounds of a session of a valid site is one of the STARTs that the rounds make:
/// with the terms of its message and its instance, and with rounds that begin with those of its
/// delivery, and are no others where the session serves it no more.
pub fn each_start_is_the_worlds()
    ensures { StartsAreThere }
{
    a_session_keeps_its_instance();
    a_start_begins_a_delivery();
}
