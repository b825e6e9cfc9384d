// What holds of the STARTs on connections of a script, as the contract of a function that does nothing.
ghost use Rattle.drill_text.specs.Reading.{reading};
ghost use Rattle.connection_events.specs.InWorld.{StartsAreInWorld};

use drill_text::laws::script_is_exact;
use line_events::laws::progress_is_of_its_door;
use script_world::laws::a_script_is_events;
use session_events::laws::{each_start_is_the_worlds, what_a_round_makes_may_come};
use station_law::laws::connections_are_sessions;

/// Each START on a connection of a valid site, over any lines behind the one that opens it, is one of
/// the STARTs of the world behind these lines, with its terms; and what was done for it begins what
/// that START has done, and is all of that where the session serves it no more. So the headline is
/// said of it, in each later world.
pub fn starts_are_in_the_world()
    ensures { StartsAreInWorld reading }
{
    script_is_exact();
    progress_is_of_its_door();
    a_script_is_events();
    each_start_is_the_worlds();
    what_a_round_makes_may_come();
    connections_are_sessions();
}
