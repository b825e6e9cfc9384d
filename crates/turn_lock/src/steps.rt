// What each step on the table tells.
use crate::event::{HistoryEvent, StandsFor};
use crate::view::View;
use atomic_table::{Join, Play, Split};
use std::marker::{Brand, PhantomData};

/// Draws a ticket.
pub(crate) struct Draw;

impl<T, E: HistoryEvent> Play<Option<T>, View<E>> for Draw {
    ghost use Rattle.turn_lock.specs.Steps.{Draws};

    ghost then = { Draws };
}

/// Reads which ticket is served, and takes the value where it is its own.
pub(crate) struct Look;

impl<T: StandsFor<E>, E: HistoryEvent> Play<Option<T>, View<E>> for Look {
    ghost use Rattle.turn_lock.specs.Steps.{Looks};

    ghost then = { Looks T.origin T.stands };
}

/// Reads how long the history is, and sees it.
pub(crate) struct See;

impl<T, E: HistoryEvent> Play<Option<T>, View<E>> for See {
    ghost use Rattle.turn_lock.specs.Steps.{Sees};

    ghost then = { Sees };
}

/// The event of a turn. Each call picks it.
pub trait Naming<E> {
    ghost use Rattle.std.specs.Prelude.{Option};

    ghost event: { Option E };
}

impl<E> Naming<E> for Brand {
    ghost use Rattle.std.specs.Prelude.{None};

    ghost event = { None };
}

/// Adds the event to the history.
pub(crate) struct Add<N> {
    of: PhantomData<N>,
}

impl<T, E: HistoryEvent, N: Naming<E>> Play<Option<T>, View<E>> for Add<N> {
    ghost use Rattle.turn_lock.specs.Steps.{Adds};

    ghost then = { Adds N.event };
}

/// Gives the value back, and serves the next ticket.
pub(crate) struct End;

impl<T, E: HistoryEvent> Play<Option<T>, View<E>> for End {
    ghost use Rattle.turn_lock.specs.Steps.{Ends};

    ghost then = { Ends };
}

/// Learns that there are not too many turns, and that the shorter of two lists that were joined
/// begins the longer.
pub(crate) struct Learn;

impl<T, E: HistoryEvent> Play<Option<T>, View<E>> for Learn {
    ghost use Rattle.turn_lock.specs.Steps.{Learns};

    ghost then = { Learns };
}

/// Enters the last turn, if all turns were entered by the seat.
pub(crate) struct Close;

impl<T: StandsFor<E>, E: HistoryEvent> Play<Option<T>, View<E>> for Close {
    ghost use Rattle.turn_lock.specs.Steps.{Closes};

    ghost then = { Closes T.origin T.stands };
}

/// How many turns are given away. Each call picks it.
pub trait Share {
    ghost use Rattle.std.specs.Prelude.{ℕ};

    ghost turns: { ℕ };
}

impl Share for Brand {
    ghost turns = { 0 };
}

/// Gives turns away.
pub(crate) struct Give<N: Share> {
    of: PhantomData<N>,
}

impl<E: HistoryEvent, N: Share> Split<View<E>> for Give<N> {
    ghost use Rattle.turn_lock.specs.Steps.{giving, given};

    ghost left = { λ v. giving v N.turns };

    ghost right = { λ v. given v N.turns };
}

/// Makes a seat that keeps the lock in mind.
pub(crate) struct Stub;

impl<E: HistoryEvent> Split<View<E>> for Stub {
    ghost use Rattle.turn_lock.specs.Steps.{given};

    ghost left = { λ v. v };

    ghost right = { λ v. given v 0 };
}

/// Takes in the turns of another seat, and what it knows.
pub(crate) struct Unite;

impl<E: HistoryEvent> Join<View<E>> for Unite {
    ghost use Rattle.turn_lock.specs.Rule.{spent_view};
    ghost use Rattle.turn_lock.specs.Steps.{both};

    ghost both = { both };

    ghost spent = { spent_view };
}

/// Takes in the turn that closes the lock.
pub(crate) struct Lend;

impl<E: HistoryEvent> Join<View<E>> for Lend {
    ghost use Rattle.turn_lock.specs.Rule.{spent_view};
    ghost use Rattle.turn_lock.specs.Steps.{lent};

    ghost both = { lent };

    ghost spent = { spent_view };
}
