// Laws of scripts, each the contract of an empty function: a caller has the law by the call.
ghost use Rattle.std.specs.Prelude.{Some};
ghost use Rattle.drill_text.specs.declared.script_line.ScriptLine.{ScriptLine};
ghost use Rattle.drill_text.specs.Reading.{reading};
ghost use Rattle.script_world.specs.Script.{AreInWorld, ImagesAreOfTheFile};

/// Each script, its lines read or as octets, is a list of events that may come, the STARTs that
/// users make on connections among them; behind any first lines of it stands the world of their
/// events. And at each moment of it, also within a line, that world has the headline against each
/// later one, whatever comes then.
pub fn a_script_is_events()
    ensures lines { AreInWorld (λ (line : ScriptLine). Some line) }
    ensures texts { AreInWorld reading }
{
    line_events::laws::lines_are_events();
    session_events::laws::what_a_round_makes_may_come();
    station_world::laws::headline_law();
    station_world::laws::at_each_moment();
    station_law::laws::a_start_hands_over();
    station_law::laws::connections_are_sessions();
}

/// An image that stands for what is published before a line, or for that and what the line gives to
/// stores, stands for one of the lists of the world's file behind some of the line's events.
pub fn images_are_of_the_file()
    ensures { ImagesAreOfTheFile }
{}
