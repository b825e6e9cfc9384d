// What a value has been through, which contracts alone see.

/// A type whose values are the events of a history. They exist in contracts alone: none is made.
pub trait HistoryEvent {
    /// What a value was before its first event.
    type Origin;
}

/// A value that has an origin, and stands for lists of events from it.
pub trait StandsFor<E: HistoryEvent> {
    ghost use Rattle.std.specs.Prelude.{List};

    ghost origin: { Self → E.Origin };

    ghost stands: { Self → List E → Type 0 };
}

/// What names an event: a run-time value that contracts see as one, as a token without octets that
/// snapshots of the value before a call and of the call's arguments determine.
pub trait Names<E> {
    ghost named: { Self → E };
}
