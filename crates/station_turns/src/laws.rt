// Laws of what a pass gains, each the contract of an empty function: a caller has the law by the
// call.
ghost use Rattle.std.specs.Prelude.{◌≡◌, ℕ, ◌+◌, ◌<◌, List, [], ◌∷◌, ◌++◌, Some, slice_get, take, Option};
ghost use Rattle.cds_time.specs.declared.cds.Cds.{Cds};
ghost use Rattle.turn_lock.specs.PassState.{PassState, Lock};
ghost use Rattle.turn_lock.specs.Own.{mark};
ghost use Rattle.turn_lock.specs.declared.view.Mark.{Mark};
ghost use Rattle.station_book.specs.State.{Opening, Event, Call};
ghost use Rattle.station_turns.specs.Turned.{called, IsReady, IsSound, Makes, Leaves};
ghost use Rattle.station_turns.specs.Gained.{Gains};
ghost use Rattle.station_turns.specs.Reads.{Reads};

/// Of no turn a pass gains nothing; one call gains its event, at the cost of one turn; a turn that
/// was left costs one; and what one run gains and the next is gained by both, in that order.
pub fn gains_compose()
    ensures none { (lock : Lock Opening) (pass : PassState Event Opening) → IsReady lock pass
        → Gains lock 0 [] pass pass }
    ensures one { (lock : Lock Opening) (call : Call) (p q : PassState Event Opening)
        → IsReady lock p → 0 < p.left → (makes : Makes lock call p q)
        → Gains lock 1 (mark makes.before (called lock.origin makes.before call) ∷ []) p q }
    ensures left { (lock : Lock Opening) (p q : PassState Event Opening)
        → IsReady lock p → 0 < p.left → Leaves lock p q → Gains lock 1 [] p q }
    ensures both { (lock : Lock Opening) (m n : ℕ) (xs ys : List (Mark Event))
        (p q r : PassState Event Opening) → Gains lock m xs p q → Gains lock n ys q r
        → Gains lock (m + n) (xs ++ ys) p r }
{}

/// Of no reading a clock shows nothing; what one run reads and the next is read by both, in order.
pub fn readings_compose()
    ensures none { (told : Option (List Cds)) → Reads told told [] }
    ensures both { (before mid after : Option (List Cds)) (xs ys : List ℕ)
        → Reads before mid xs → Reads mid after ys → Reads before after (xs ++ ys) }
{}

/// Each own event of a pass is the event that one thread gets that makes the calls of the history
/// one after the other: its moment and its reply are those that the events before it give.
pub fn own_events_are_replayed()
    ensures { (lock : Lock Opening) (pass : PassState Event Opening) (i : ℕ) (m : Mark Event)
        → IsSound lock pass → slice_get pass.own i ≡ Some m
        → m.event ≡ called lock.origin (take m.place pass.seen) m.event.call }
{}
