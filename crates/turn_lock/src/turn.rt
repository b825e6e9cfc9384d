// An open turn.
ghost use Rattle.std.specs.Prelude.{◌≡◌};
ghost use types.Logic.{sem};
ghost use Rattle.std.specs.Borrow.{Lends};
ghost use Rattle.turn_lock.specs.contracts.turn.Turn.{the_row};

use crate::event::{HistoryEvent, StandsFor};
use crate::view::View;
use atomic_table::Seat;
use std::marker::Model;

/// A turn that was entered, and has not ended. It owns the value and borrows nothing.
///
/// A turn that is dropped takes the value with it, and every later turn waits for ever.
#[derive(Drop)]
pub struct Turn<T: StandsFor<E>, E: HistoryEvent> {
    pub(crate) seat: Seat<Option<T>, View<E>>,
    pub(crate) value: T,
}

impl<T: StandsFor<E>, E: HistoryEvent> Model for Turn<T, E> {
    ghost use Rattle.std.specs.Prelude.{◌≡◌, [], ◌∷◌, IsSome, None};
    ghost use Rattle.turn_lock.specs.declared.pass.Standing.TheVariants.{InTurn};
    ghost use Rattle.turn_lock.specs.PassState.{TurnState, pass_state};
    ghost use Rattle.turn_lock.specs.Steps.{list_of};

    ghost Value = { TurnState T E E.Origin };

    ghost view = { λ t. record {
      pass = pass_state t.seat.table_id t.seat.me.0 InTurn;
      list = list_of t.seat.me.0.kept;
      value = t.value;
    } };

    ghost invariant = { λ t. (t.seat.me.1 ≡ (0, None) ∷ []) × IsSome t.seat.me.0.kept
        × (t.seat.me.0.added ≡ None) };
}

impl<T: StandsFor<E>, E: HistoryEvent> Turn<T, E> {
    /// The value under the lock, as this turn has left it so far.
    pub fn value(&self) -> &T
        ensures { result.now ≡ self.now.value }
    {
        &self.value
    }

    /// The value under the lock, lent to be changed. What is written into it is the turn's value
    /// when the loan ends; nothing else of the turn changes.
    pub fn value_mut(&mut self) -> &mut T
        ensures* writes_back { sem 𝓛 (Lends (the_row T.row E.row E.Origin.row T.StandsFor) T.row
            self.entry result (λ w. record self.old { value = w })) }
        ensures value { result.now ≡ self.old.value }
    {
        &mut self.value
    }
}
