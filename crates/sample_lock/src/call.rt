// A call of the account under the lock, named by what determines it.
ghost use Rattle.std.specs.Prelude.{◌≡◌, ◌+◌, ◌<◌};
ghost use Rattle.turn_lock.specs.declared.pass.Standing.TheVariants.{Ready};
ghost use Rattle.sample_lock.specs.Ledger.{opened, after, booking_at, reply_to, IsLegal};
ghost use Rattle.sample_lock.specs.Served.{MadeOne};

use crate::account::Account;
use crate::booking::Booking;
use crate::order::{Order, Reply};
use std::marker::Model;
use std::snapshot::Snapshot;
use std::sync::Wait;
use turn_lock::{Names, Pass, Turns};

/// A call that was made, seen as its event. Of the account and the order, which are no longer as
/// they were, it keeps no octet.
#[derive(Drop)]
pub struct Call {
    before: Snapshot<Account>,
    clerk: u32,
    reading: u64,
    order: Snapshot<Order>,
}

impl Model for Call {
    ghost use Rattle.sample_lock.specs.Ledger.{booking_at};
    ghost use Rattle.sample_lock.specs.declared.booking.Booking.{Booking};

    ghost Value = { Booking };

    ghost view = { λ c. booking_at c.before.value c.clerk c.reading c.order.value };
}

impl Names<Booking> for Call {
    ghost named = { λ c. c };
}

impl Call {
    /// Has an order answered, and names the call.
    pub fn make(account: &mut Account, clerk: u32, reading: u64, order: Order) -> (Reply, Call)
        ensures account { account.new ≡ after account.old reading order }
        ensures reply { result.0 ≡ reply_to account.old order }
        ensures call { result.1 ≡ booking_at account.old clerk reading order }
    {
        let before = Snapshot::of(&*account);
        let asked = Snapshot::of(&order);
        let reply = account.answer(reading, order);
        let call = Call {
            before,
            clerk,
            reading,
            order: asked,
        };
        (reply, call)
    }
}

/// Has an order answered in a turn of its own.
pub fn visit<R: Wait>(
    rt: &R,
    lock: &Turns<Account, Booking>,
    pass: &mut Pass<Booking>,
    clerk: u32,
    reading: u64,
    order: Order,
) -> Reply
    requires lock { pass.old.lock ≡ Some lock.now }
    requires ready { (pass.old.standing ≡ Ready) × (0 < pass.old.left) }
    ensures ready { (pass.new.lock ≡ pass.old.lock) × (pass.new.standing ≡ Ready)
        × (pass.new.joined ≡ pass.old.joined) }
    ensures turns { (pass.new.left + 1 ≡ pass.old.left)
        × (pass.new.entered ≡ pass.old.entered + 1) }
    ensures made { MadeOne lock.now.origin clerk reading order result pass.old pass.new }
    ensures legal { IsLegal (opened lock.now.origin) pass.new.seen }
{
    let mut turn = lock.enter(rt, pass);
    let (reply, call) = Call::make(turn.value_mut(), clerk, reading, order);
    lock.commit_by(pass, turn, &call);
    reply
}
