// Laws of histories, each the contract of an empty function: a caller has the law by the call.
ghost use Rattle.std.specs.Prelude.{◌≡◌, ℕ, ◌<◌, List, [], ◌∷◌, ◌++◌, length, if◌then◌else◌};
ghost use Rattle.std.specs.Prelude.{IsTrue, IsFalse, Some};
ghost use Rattle.std.specs.List.{list_any};
ghost use mathlib.Core.List.{IsPrefix};
ghost use Rattle.archive_terms.specs.Archive.{Entry, is_archive, IsArchive};
ghost use Rattle.cltu_queue.specs.Run.{AreInTurn};
ghost use Rattle.cltu_queue.specs.declared.ask.Ask.{Ask};
ghost use Rattle.station_config.specs.Validity.{IsSite};
ghost use Rattle.station_config.specs.declared.site.Site.{Site};
ghost use Rattle.station_book.specs.Origin.{kinds_of};
ghost use Rattle.station_book.specs.State.{Opening, State, opened, Event, Call, publish, accepted};
ghost use Rattle.station_book.specs.State.{foreign};
ghost use Rattle.station_book.specs.History.{after, instance_of, is_running, is_lost, event_at};
ghost use Rattle.station_book.specs.History.{replay, IsLegal, StandsAs};
ghost use Rattle.station_book.specs.Publishing.{published_in, FrontsRise};
ghost use Rattle.station_book.specs.Doors.{Has, is_by, HasOneForward};
ghost use Rattle.station_book.specs.Radiation.{run_begun, are_of_one_run, radiations, IsLawful};
ghost use Rattle.station_book.specs.Notices.{door_of_run, are_before_stop, IsToldInTurn};
ghost use Rattle.station_book.specs.Named.{IsMadeBy};

use cltu_queue::laws as queue;

/// A longer legal history begins with legal ones, and goes on legally from the replay of each.
pub fn legal_histories_begin_with_legal_ones()
    ensures begins { (s : State) (h k : List Event) → IsLegal s (h ++ k) → IsLegal s h }
    ensures goes_on { (s : State) (h k : List Event) → IsLegal s (h ++ k) → IsLegal (replay s h) k }
{}

/// A book that stands for a list stands after one more call for the list with that call's event.
pub fn one_event_more()
    ensures { (book : State) (h : List Event) (call : Call) → StandsAs book h
        → StandsAs (after book call) (h ++ event_at book call ∷ []) }
{}

/// No call changes a book's origin.
pub fn the_origin_stays()
    ensures { (s : State) (call : Call) → (after s call).opening ≡ s.opening }
{}

/// A book that stands for a list stands, after a call that is named, for the list with its event. It
/// is `one_event_more` for a caller whose call is known, as `quit door`, so that what stands behind
/// it has computed: the caller's own clause says by `IsMadeBy` which call it was.
pub fn more_by()
    ensures { (call : Call) (before book : State) (e : Event) (h : List Event)
        → IsMadeBy call before book e → StandsAs before h → StandsAs book (h ++ e ∷ []) }
{}

/// A call that is named doesn't change a book's origin.
pub fn origin_by()
    ensures { (call : Call) (before book : State) (e : Event) (o : Opening)
        → IsMadeBy call before book e → before.opening ≡ o → book.opening ≡ o }
{}

/// What a book of this origin stands for is legal from it.
pub fn legal_by()
    ensures { (book : State) (o : Opening) (h seen : List Event) → StandsAs book h
        → book.opening ≡ o → seen ≡ h → IsLegal (opened o) seen }
{}

/// The published entries are those of the origin and those that the events published, in order.
/// They only grow, stay an archive, and no front of a look is below an earlier one.
pub fn published_entries_grow()
    ensures by_events { (s : State) (h : List Event) → IsLegal s h
        → (replay s h).published ≡ s.published ++ published_in h }
    ensures begin { (s : State) (h k : List Event)
        → IsPrefix (replay s h).published (replay s (h ++ k)).published }
    ensures archive { (s : State) (h : List Event) → IsArchive s.published
        → IsArchive (replay s h).published }
    ensures fronts { (s : State) (h : List Event) → IsLegal s h
        → FrontsRise (length s.published) h }
{}

/// A publishing is accepted exactly where the entries of the origin, those that the events before
/// it published, and its own are an archive. So where one worker publishes, it alone decides.
pub fn a_publishing_is_judged_by_those_before_it()
    ensures { (s : State) (h k : List Event) (e : Event) (entries : List Entry)
        → IsLegal s (h ++ e ∷ k) → e.call ≡ publish entries
        → e.reply ≡ (if is_archive (s.published ++ published_in h ++ entries) then accepted
        else foreign) }
{}

/// In each book of a history a door has at most one instance, and an instance at most one door.
pub fn a_door_has_one_instance()
    ensures instances { (o : Opening) (h : List Event) (door i j : ℕ) →
        let book = replay (opened o) h in Has book door i → Has book door j → i ≡ j }
    ensures doors { (s : State) (door other i : ℕ) → Has s door i → Has s other i → door ≡ other }
{}

/// The calls of other doors, and those of no door, leave what a door has bound, and whether its run
/// is started. So where each door has one worker, whether an ask is lost is decided by that worker
/// alone.
pub fn other_doors_leave_a_door()
    ensures instance { (s : State) (h : List Event) (door : ℕ)
        → IsFalse (list_any (λ e. is_by door e.call) h)
        → instance_of (replay s h) door ≡ instance_of s door }
    ensures run { (s : State) (h : List Event) (door : ℕ) → HasOneForward s.opening.services
        → IsFalse (list_any (λ e. is_by door e.call) h)
        → is_running (replay s h) door ≡ is_running s door }
    ensures lost { (s : State) (h : List Event) (door : ℕ) (ask : Ask)
        → HasOneForward s.opening.services
        → IsFalse (list_any (λ e. is_by door e.call) h)
        → is_lost (replay s h) door ask ≡ is_lost s door ask }
{}

/// At most one instance of a valid site is the forward service's, which the laws on other doors
/// ask of a book's origin.
pub fn a_site_has_one_forward_service()
    ensures { (site : Site) → IsSite site → HasOneForward (kinds_of site.instances) }
{}

/// Lawful radiation: in each legal history, the CLTUs that are accepted in a run have the
/// identifications first, first + 1 and so on, and those taken for radiation are the first of them,
/// in order, each once and within its window.
pub fn lawful_radiation()
    ensures { (s : State) (h k : List Event) (e : Event) (first : ℕ) → IsLegal s (h ++ e ∷ k)
        → run_begun e ≡ Some first → IsTrue (are_of_one_run k)
        → IsLawful (replay s (h ++ e ∷ [])).queue.run first k }
{
    queue::lawful_radiation();
}

/// Between a run's START and its stop, the notices that are told at its door are, in order and each
/// once, the first of those that the run's events made, but for those that a later `uplink`
/// replaced; the others of these wait. No other door is told any.
pub fn notices_are_told_in_turn()
    ensures { (o : Opening) (h k : List Event) (e : Event) (door : ℕ) → HasOneForward o.services
        → IsLegal (opened o) (h ++ e ∷ k) → door_of_run e ≡ Some door
        → IsTrue (are_before_stop door k)
        → IsToldInTurn (replay (opened o) (h ++ e ∷ [])) door k }
{}

/// In each legal history from a book's origin, each radiation is of a later run than the one before
/// it, or of a later CLTU of the same run: nothing radiates twice.
pub fn nothing_radiates_twice()
    ensures { (o : Opening) (h : List Event) → IsLegal (opened o) h → AreInTurn (radiations h) }
{
    queue::nothing_radiates_twice();
}
