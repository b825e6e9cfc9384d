// The promises of every script, each the contract of a function that does nothing: a caller has it
// by the call. The headline is that of every list of events.
ghost use Rattle.std.specs.Prelude.{◌≡◌, ℕ, ◌≤◌, List, ◌∷◌, Some};
ghost use Rattle.cds_time.specs.declared.cds.Cds.{Cds};
ghost use Rattle.drill_text.specs.declared.script_line.ScriptLine.{ScriptLine};
ghost use Rattle.station_config.specs.declared.site.Site.{Site};
ghost use Rattle.station_world.specs.Headline.{HeadlineLaw};
ghost use Rattle.script_store.specs.Store.{Store};
ghost use Rattle.station_desk.specs.Start.{moment, desk_buffers};
ghost use Rattle.station_law.specs.State.{State, start};
ghost use Rattle.script_store.specs.Said.{Handed, handed_by};
ghost use Rattle.station_law.specs.Desk.{desk, handed_at_start, items_of};
ghost use Rattle.station_law.specs.Doors.{act};
ghost use Rattle.archive_terms.specs.Archive.{Entry};
ghost use Rattle.station_law.specs.Runs.{AreTold, ending, ending_of, in_order, all_fine};
ghost use Rattle.station_law.specs.Lines.{connected, step, step_text};
ghost use Rattle.station_law.specs.EntriesFacts.{Grows};
ghost use Rattle.station_law.specs.Connections.{AreSessions};
ghost use Rattle.station_law.specs.Shown.{HasWhatIsStored, HasOneArchive};
ghost use Rattle.drill_text.specs.Reading.{reading};

/// The headline, over every list of events of a station's world: what each START hands its link,
/// what radiates, and what a recovery keeps, then and in each later world.
pub fn headline_law()
    ensures { HeadlineLaw }
{
    station_world::laws::headline_law();
}

/// At each line of a script, behind others that are in order, its text stands between theirs and
/// that of the later lines, and each buffer that it tells is one that a START handed over.
pub fn transcript_law()
    ensures lines { (site : Site) (lines : List ScriptLine) → AreTold step (start site) lines }
    ensures texts { (site : Site) (lines : List (List ℕ)) → AreTold step_text (start site) lines }
{
    lines_rest_on();
}

/// A START of the desk that isn't refused is the last one behind its line, with the buffers of its
/// definition.
pub fn a_start_hands_over()
    ensures last { (state : Store) (first last : Cds) (quality : ℕ) (starts : List Handed)
        → moment first ≤ moment last
        → handed_by starts (desk state first last quality).said
        ≡ handed_at_start state.published first last quality ∷ starts }
    ensures buffers { (entries : List Entry) (first last : Cds) (quality : ℕ)
        → items_of (handed_at_start entries first last quality).buffers
        ≡ desk_buffers entries first last quality }
{}

/// Each connection of a script is *Session*: what is said of it, from the line that opens it for as
/// long as it is there, and its events of the book, are those of the rounds that the script's lines
/// fix, each on the one book of the world. And that book has one legal history: each line goes on
/// where the one before left it, and a recovery begins a new one.
pub fn connections_are_sessions()
    ensures lines { AreSessions (λ (line : ScriptLine). Some line) }
    ensures texts { AreSessions reading }
{
    station_links::laws::runs_are_sessions();
}

/// What is published in the book behind a script is what is stored.
pub fn the_book_has_what_is_stored()
    ensures { HasWhatIsStored }
{
    lines_rest_on();
}

/// How a script ends: with a bad line exactly where one is in no right state or outside the
/// grammar, else with an entry refused as Full exactly where one was, else with all done.
pub fn ending_law()
    ensures { (site : Site) (lines : List (List ℕ)) →
        ending step_text (start site) lines
        ≡ ending_of (in_order step_text (start site) lines)
        (all_fine step_text (start site) lines) }
{}

/// Each line leaves the book with what is stored, an archive, where it had it before.
pub(crate) fn one_archive_stays()
    ensures lines { (state : State) (line : ScriptLine) → HasOneArchive state
        → HasOneArchive (step state line).next }
    ensures doors { (state : State) (line : ScriptLine) → HasOneArchive state
        → HasOneArchive (connected state (act state.doors state.clock line)).next }
{
    lines_rest_on();
}

// An archive grows by an entry that may follow.
fn lines_rest_on()
    ensures { Grows }
{
    archive_terms::laws::archive_grows();
}
