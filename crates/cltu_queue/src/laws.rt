// Laws of the forward machine, each the contract of an empty function: a caller has the law by the
// call.
ghost use Rattle.std.specs.Prelude.{◌≡◌, ◌≢◌, ◌≤◌, ℕ, Ok, Some, IsTrue, IsFalse, List, []};
ghost use Rattle.std.specs.Prelude.{length, ◌&&◌};
ghost use Rattle.std.specs.List.{list_any};
ghost use Rattle.fcltu_numbers.specs.declared.cltu_production_status.CltuProductionStatus.TheVariants.{Interrupted, Halted};
ghost use Rattle.fcltu_numbers.specs.declared.cltu_notification_type.CltuNotificationType.TheVariants.{ProductionInterrupted, ProductionHalted};
ghost use Rattle.fcltu_numbers.specs.declared.uplink_status.UplinkStatus.{UplinkStatus};
ghost use Rattle.cltu_queue.specs.declared.in_air.InAir.{InAir};
ghost use Rattle.cltu_queue.specs.declared.taken.Taken.TheVariants.{Expired, Radiate};
ghost use Rattle.cltu_queue.specs.Machine.{Machine, new_machine, is_this, is_of_run, on_take};
ghost use Rattle.cltu_queue.specs.Machine.{on_interrupted, on_uplink};
ghost use Rattle.cltu_queue.specs.Forward.{Event, start, started, forward};
ghost use Rattle.cltu_queue.specs.Run.{steps, after, are_of_one_run, accepted, radiations, lands};
ghost use Rattle.cltu_queue.specs.Run.{IsLawful, AreInTurn, TakesOff, DiscardsWithNotice};
ghost use Rattle.cltu_queue.specs.Run.{expiry_notice, interruption_notice, StopsProduction};
ghost use Rattle.cltu_queue.specs.Run.{IsSound};

/// Lawful radiation: whatever the events between a START and the next, the CLTUs accepted have the
/// identifications first, first + 1 and so on, and those that radiated are the first of them, in
/// order, each once and within its window.
pub fn lawful_radiation()
    ensures { (m : Machine) (first : ℕ) (events : List Event)
        → (forward m (start first)).1 ≡ started (Ok tt)
        → let begun = (forward m (start first)).0 in
        IsTrue (are_of_one_run (steps begun events))
        → IsLawful begun.run first (steps begun events) }
{}

/// Whatever the events since a queue was made, each radiation is of a later run than the one before
/// it, or of a later CLTU of the same run: nothing radiates twice.
pub fn nothing_radiates_twice()
    ensures { (room longest : ℕ) (events : List Event)
        → AreInTurn (radiations (steps (new_machine room longest) events)) }
{}

/// What radiates is in the air, where nothing was. It stays there until the end or the failure of
/// its radiation is told, and until then nothing else radiates, in whatever run.
pub fn one_in_the_air()
    ensures takes_off { (m : Machine) (now run id : ℕ) (octets : List ℕ)
        → (on_take m now).1 ≡ Radiate run id octets → TakesOff m (on_take m now).0 run id octets }
    ensures stays { (m : Machine) (events : List Event) (a : InAir) → m.in_air ≡ Some a
        → IsFalse (list_any (lands a) events) → (after m events).in_air ≡ Some a }
    ensures radiates_none { (m : Machine) (events : List Event) (a : InAir) → m.in_air ≡ Some a
        → IsFalse (list_any (lands a) events) → radiations (steps m events) ≡ [] }
{}

/// A blocked run stays blocked, accepts nothing and radiates nothing until the next START.
pub fn blocked_until_the_next_start()
    ensures blocked { (m : Machine) (events : List Event) → IsTrue m.blocked
        → IsTrue (are_of_one_run (steps m events)) → IsTrue (after m events).blocked }
    ensures accepts_none { (m : Machine) (events : List Event) → IsTrue m.blocked
        → IsTrue (are_of_one_run (steps m events)) → accepted (steps m events) ≡ [] }
    ensures radiates_none { (m : Machine) (events : List Event) → IsTrue m.blocked
        → IsTrue (are_of_one_run (steps m events)) → radiations (steps m events) ≡ [] }
{}

/// A CLTU that expired, a radiation that failed in its run, and production that was interrupted or
/// halted in a run discard all that waits, free its octets, block the run, and are told.
pub fn what_is_discarded_is_notified()
    ensures expired { (m : Machine) (now id : ℕ) → (on_take m now).1 ≡ Expired id
        → DiscardsWithNotice m (on_take m now).0 (expiry_notice m id) }
    ensures interrupted { (m : Machine) (run id : ℕ) (a : InAir) → m.in_air ≡ Some a
        → IsTrue (is_this run id a && is_of_run m a)
        → DiscardsWithNotice m (on_interrupted m run id) (interruption_notice m a) }
    ensures production_interrupted { (m : Machine) (status : UplinkStatus) → IsTrue m.started
        → m.production ≢ Interrupted
        → StopsProduction ProductionInterrupted (on_uplink m Interrupted status) }
    ensures production_halted { (m : Machine) (status : UplinkStatus) → IsTrue m.started
        → m.production ≢ Halted
        → StopsProduction ProductionHalted (on_uplink m Halted status) }
{}

/// Whatever the events since a queue was made, the octets that wait are within its room, and at
/// most 1,003 notices wait.
pub fn few_wait()
    ensures made { (room longest : ℕ) → IsSound (new_machine room longest) }
    ensures after { (m : Machine) (events : List Event) → IsSound m → IsSound (after m events) }
    ensures notices { (m : Machine) → IsSound m → length m.notices ≤ 1003 }
{}
