// Laws of fronts and of own events, each the contract of an empty function: a caller has the law by
// the call.
ghost use Rattle.std.specs.Prelude.{◌≡◌, ℕ, ◌+◌, ◌≤◌, List, [], ◌∷◌, ◌++◌, length};
ghost use Rattle.std.specs.List.{sum_by};
ghost use mathlib.Core.List.{IsPrefix};
ghost use Rattle.turn_lock.specs.declared.view.Mark.{Mark};
ghost use Rattle.turn_lock.specs.Own.{mark, times, total, weight_of, StandFrom, AllStand, MakeUp};

/// A list is a front of itself and of each list that goes on from it; a front of a front is one;
/// and of two fronts of one list the shorter is one of the longer.
pub fn fronts_compose<E>()
    ensures itself { (xs : List E) → IsPrefix xs xs }
    ensures goes_on { (xs ys : List E) → IsPrefix xs (xs ++ ys) }
    ensures through { (xs ys zs : List E) → IsPrefix xs ys → IsPrefix ys zs → IsPrefix xs zs }
    ensures within { (xs ys zs : List E) → IsPrefix xs zs → IsPrefix ys zs → length xs ≤ length ys
        → IsPrefix xs ys }
{}

/// Own events that stand in what was seen stand in each history that begins with it.
pub fn own_events_stand_on<E>()
    ensures { (h l : List E) (lists : List (List (Mark E)))
        → IsPrefix h l → AllStand h lists → AllStand l lists }
{}

/// Own events that stand in a history stand in it with the one that comes next, which is then last.
pub fn next_event_stands<E>()
    ensures { (h : List E) (e : E) (ms : List (Mark E))
        → StandFrom h 0 ms → StandFrom (h ++ e ∷ []) 0 (ms ++ mark h e ∷ []) }
{}

/// The lists of two passes, put beside each other as a join does, stand in a history exactly where
/// both do; they have as many events, and each place as often, as both together.
pub fn own_events_of_joined_passes<E>()
    ensures stand { (h : List E) (xs ys : List (List (Mark E)))
        → AllStand h xs → AllStand h ys → AllStand h (xs ++ ys) }
    ensures apart { (h : List E) (xs ys : List (List (Mark E)))
        → AllStand h (xs ++ ys) → AllStand h xs × AllStand h ys }
    ensures places { (k : ℕ) (xs ys : List (List (Mark E)))
        → times k (xs ++ ys) ≡ times k xs + times k ys }
    ensures number { (xs ys : List (List (Mark E))) → total (xs ++ ys) ≡ total xs + total ys }
{}

/// Own events that make up a history weigh as much as it does, however events are weighed: so they
/// are as many, and as many of each kind.
pub fn made_up_weighs_as_much<E>()
    ensures { (f : E → ℕ) (h : List E) (lists : List (List (Mark E)))
        → MakeUp h lists → weight_of f lists ≡ sum_by f h }
{}
