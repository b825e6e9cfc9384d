// What a seat at the table knows, and the rule of the table.
use crate::event::{HistoryEvent, StandsFor};
use atomic_table::TableRule;
use std::collections::LinkedList;
use std::snapshot::Snapshot;

/// An event at its place in the history.
pub struct Mark<E> {
    pub place: u64,
    pub event: E,
}

/// What a pass knows of its lock. No value of it is made.
pub struct View<E: HistoryEvent> {
    /// The origin of the lock's value, or none in a view that is spent.
    pub origin: Option<E::Origin>,
    /// How many turns the lock was made for.
    pub turns: u64,
    pub left: u64,
    /// The turns entered by the pass, and by the passes that were joined into it.
    pub entered: u64,
    /// The ticket word as `close` read it last, or 0.
    pub found: u64,
    /// The ticket of a turn that has not ended.
    pub ticket: Option<u64>,
    /// What the value stood for when the open turn took it.
    pub kept: Option<LinkedList<E>>,
    /// The event that the open turn has added.
    pub added: Option<E>,
    pub seen: LinkedList<E>,
    /// The shorter of the lists that two seats had seen as they were joined. `seen` begins with it.
    pub beginning: LinkedList<E>,
    pub own: LinkedList<Mark<E>>,
    /// The own events of each pass that was joined into this one.
    pub joined: LinkedList<LinkedList<Mark<E>>>,
    /// What `own` and `joined` were in the seat from which this one was split.
    pub noted_own: LinkedList<Mark<E>>,
    pub noted_joined: LinkedList<LinkedList<Mark<E>>>,
}

/// What the lock was made of.
#[derive(Drop)]
pub struct Start<T> {
    pub value: Snapshot<T>,
    pub turns: u64,
}

pub struct Law;

impl<T: StandsFor<E>, E: HistoryEvent> TableRule<Option<T>, View<E>, Start<T>> for Law {
    ghost use Rattle.std.specs.Prelude.{◌+◌};
    ghost use Rattle.turn_lock.specs.Rule.{TableStands, fresh_view};

    ghost holds = { λ key. TableStands T.origin T.stands (T.origin key.value.value) key.turns };

    ghost first = { λ key. fresh_view (T.origin key.value.value) key.turns (key.turns + 1) };
}
