// Where orders come from, and what a clerk works at.
ghost use Rattle.std.specs.Prelude.{[], ◌∷◌};
ghost use Rattle.octet_core.specs.Told.{Tells};
ghost use Rattle.sample_lock.specs.DeskReport.{Adds, order_of, reading_of, told_of};

use crate::order::{Order, Reply};

/// Where orders come from and replies go to. Contracts see what it tells of its answers to `next`
/// and of the replies that it took, each in order, or nothing where it doesn't tell.
pub trait Counter {
    ghost use Rattle.std.specs.Prelude.{Option, List};
    ghost use Rattle.sample_lock.specs.declared.order.Order.{Order};
    ghost use Rattle.sample_lock.specs.declared.order.Reply.{Reply};

    ghost answers: { Self → Option (List (Option Order)) };

    ghost replies: { Self → Option (List Reply) };

    /// The next order, or none: the counter is closed.
    fn next(&mut self) -> Option<Order>
        ensures answers { Tells (answers self.old) (answers self.new) (result ∷ []) }
        ensures replies { Tells (replies self.old) (replies self.new) [] };

    /// Takes the reply to an order that it gave.
    fn take(&mut self, reply: Reply)
        ensures answers { Tells (answers self.old) (answers self.new) [] }
        ensures replies { Tells (replies self.old) (replies self.new) (reply ∷ []) };
}

/// A clock. Contracts see what it tells of its readings, in order, or nothing where it doesn't
/// tell.
pub trait Clock {
    ghost use Rattle.std.specs.Prelude.{Option, List, ℕ};

    ghost readings: { Self → Option (List ℕ) };

    /// What the clock reads now.
    fn read(&mut self) -> u64
        ensures { Tells (readings self.old) (readings self.new) (result ∷ []) };
}

/// What one clerk works at, whatever it is made of.
pub trait Desk {
    ghost use Rattle.sample_lock.specs.DeskReport.{DeskReport};

    ghost told: { Self → DeskReport };

    /// The next order and when it came, or none: the desk is closed.
    fn next(&mut self) -> Option<(u64, Order)>
        ensures { Adds (told self.old) (told self.new) (order_of result ∷ []) (reading_of result)
            [] };

    /// Takes the reply to an order that it gave.
    fn take(&mut self, reply: Reply)
        ensures { Adds (told self.old) (told self.new) [] [] (reply ∷ []) };
}

/// A counter and its clock.
#[derive(Drop)]
pub struct Post<G, C> {
    pub counter: G,
    pub clock: C,
}

impl<G: Counter, C: Clock> Desk for Post<G, C> {
    ghost told = { λ p. told_of (G.answers p.counter) (C.readings p.clock) (G.replies p.counter) };

    fn next(&mut self) -> Option<(u64, Order)> {
        let order = self.counter.next()?;
        Some((self.clock.read(), order))
    }

    fn take(&mut self, reply: Reply) {
        self.counter.take(reply);
    }
}
