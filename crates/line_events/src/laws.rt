// Laws of the lines, each the contract of an empty function: a caller has the law by the call.
ghost use Rattle.line_events.specs.Forms.{LinesAreEvents};
ghost use Rattle.line_events.specs.Laws.{Laws};
ghost use Rattle.line_events.specs.Progress.{ProgressIsOfItsDoor};

/// The events of each form of line may come in a world that rests, and lead to one that rests and
/// shows the line's view.
pub fn lines_are_events()
    ensures { LinesAreEvents }
{
    rests_on();
}

/// What a round of a session makes of the STARTs of users it makes of those of its door, and of no
/// others.
pub fn progress_is_of_its_door()
    ensures { ProgressIsOfItsDoor }
{}

// The laws of the archive, of deliveries, and of the world's events.
fn rests_on()
    ensures { Laws }
{
    archive_terms::laws::archive_grows();
    archive_terms::laws::offline_rounds();
    archive_terms::laws::continuity_stays();
    station_world::laws::calls_are_events();
    station_world::laws::a_desk_start_is_events();
}
