// A thread's leave to enter turns.
ghost use Rattle.std.specs.Prelude.{◌≡◌, ◌+◌, ◌-◌, ◌^◌, ◌<◌, ◌≤◌, [], ◌∷◌, None};
ghost use Rattle.turn_lock.specs.PassState.{view_of, pass_state, stubbed};
ghost use Rattle.turn_lock.specs.declared.pass.Standing.TheVariants.{Ready, InTurn, Closed};

use crate::event::HistoryEvent;
use crate::view::View;
use atomic_table::Badge;
use std::marker::Model;
use std::mem;

/// What may be done with a pass.
#[derive(Clone, Copy, PartialEq, Eq, Debug)]
pub enum Standing {
    /// It has no open turn.
    Ready,
    InTurn,
    /// Its lock was closed with it.
    Closed,
}

/// Turns of one lock. A thread enters them one after the other.
#[derive(Drop)]
pub struct Pass<E: HistoryEvent> {
    left: u64,
    entered: u64,
    standing: Standing,
    badge: Badge<View<E>>,
}

impl<E: HistoryEvent> Model for Pass<E> {
    ghost use Rattle.std.specs.Prelude.{◌≡◌, ◌+◌, ◌^◌, ◌≤◌};
    ghost use Rattle.turn_lock.specs.declared.pass.Standing.TheVariants.{Ready};
    ghost use Rattle.turn_lock.specs.PassState.{PassState, lock_of, view_of, own_of, joined_of};
    ghost use Rattle.turn_lock.specs.PassState.{IsReady};

    ghost Value = { PassState E E.Origin };

    ghost view = { λ p. record {
      lock = lock_of p.badge.table_id (view_of p.badge.views);
      standing = p.standing;
      left = p.left;
      entered = p.entered;
      found = (view_of p.badge.views).found;
      seen = (view_of p.badge.views).seen;
      own = own_of p.standing (view_of p.badge.views);
      joined = joined_of p.standing (view_of p.badge.views);
    } };

    ghost invariant = { λ p. (p.standing ≡ Ready → IsReady p.badge p.left p.entered)
        × (p.left + p.entered ≤ 2 ^ 62 + 1) };
}

impl<E: HistoryEvent> Pass<E> {
    /// How many turns it has left.
    pub fn left(&self) -> u64
        ensures { result ≡ self.now.left }
    {
        self.left
    }

    pub(crate) fn entered(&self) -> u64
        ensures { result ≡ self.now.entered }
    {
        self.entered
    }

    /// A pass over a badge with no open turn.
    pub(crate) fn over(badge: Badge<View<E>>, turns_left: u64, turns_entered: u64) -> Pass<E>
        requires view { (badge.views ≡ view_of badge.views ∷ [])
            × ((view_of badge.views).left ≡ turns_left) × ((view_of badge.views).entered
            ≡ turns_entered) }
        requires rests { ((view_of badge.views).ticket ≡ None)
            × ((view_of badge.views).kept ≡ None) }
        requires small { turns_left + turns_entered ≤ 2 ^ 62 + 1 }
        ensures { result ≡ pass_state badge.table_id (view_of badge.views) Ready }
    {
        Pass {
            left: turns_left,
            entered: turns_entered,
            standing: Standing::Ready,
            badge,
        }
    }

    /// Gives the badge out.
    pub(crate) fn take(&mut self) -> Badge<View<E>>
        requires { self.old.standing ≡ Ready }
        ensures view { (result.views ≡ view_of result.views ∷ [])
            × ((view_of result.views).ticket ≡ None) × ((view_of result.views).kept ≡ None) }
        ensures known { self.old ≡ pass_state result.table_id (view_of result.views) Ready }
        ensures pass { self.new ≡ record self.old {
          lock = None;
          standing = InTurn;
          found = 0;
          seen = [];
          own = [];
          joined = [];
        } }
        ensures small { self.old.left + self.old.entered ≤ 2 ^ 62 + 1 }
    {
        self.standing = Standing::InTurn;
        mem::replace(&mut self.badge, Badge::blank())
    }

    /// A turn is entered. The stub keeps the lock in mind.
    pub(crate) fn begin(&mut self, stub: Badge<View<E>>)
        requires { (self.old.standing ≡ InTurn) × (0 < self.old.left) }
        ensures { self.new ≡ record (stubbed stub.table_id (view_of stub.views) InTurn) {
          left =
              self.old.left - 1;
          entered = self.old.entered + 1;
        } }
    {
        self.badge = stub;
        self.left -= 1;
        self.entered += 1;
    }

    /// Takes the badge back, after the turn.
    pub(crate) fn rest(&mut self, badge: Badge<View<E>>)
        requires view { (badge.views ≡ view_of badge.views ∷ [])
            × ((view_of badge.views).ticket ≡ None) × ((view_of badge.views).kept ≡ None) }
        requires pass { self.old.standing ≡ InTurn }
        requires turns { (self.old.left ≡ (view_of badge.views).left)
            × (self.old.entered ≡ (view_of badge.views).entered) }
        ensures { self.new ≡ pass_state badge.table_id (view_of badge.views) Ready }
    {
        self.badge = badge;
        self.standing = Standing::Ready;
    }

    /// The lock was closed, and all turns were entered by the pass.
    pub(crate) fn close(&mut self, stub: Badge<View<E>>)
        requires { self.old.standing ≡ InTurn }
        ensures { self.new ≡ record (stubbed stub.table_id (view_of stub.views) Closed) {
          left =
              self.old.left;
          entered = self.old.entered;
        } }
    {
        self.badge = stub;
        self.standing = Standing::Closed;
    }
}
