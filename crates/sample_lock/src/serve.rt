// Clerks at their desks.
ghost use Rattle.std.specs.Prelude.{◌≡◌, ◌+◌, ◌^◌, ◌≤◌, length, All};
ghost use Rattle.std.specs.Thread.{IsSync};
ghost use Rattle.turn_lock.specs.declared.pass.Standing.TheVariants.{Ready};
ghost use Rattle.sample_lock.specs.DeskReport.{told_of};
ghost use Rattle.sample_lock.specs.Served.{HasServed, IsSeated, AtDesk, EachServed};

use crate::account::Account;
use crate::booking::Booking;
use crate::call::visit;
use crate::desk::{Clock, Counter, Desk, Post};
use crate::seat::Seat;
use std::sync::Wait;
use std::thread::{Threads, join_mut};
use turn_lock::{Pass, Turns};

/// Has the desk's orders answered, one a turn, until it is closed or the turns are spent. Says
/// whether they were.
#[tactic(auto, using(crate::proofs::Serving::serving_nothing, crate::proofs::Serving::serving_spent, crate::proofs::Serving::serving_end))]
fn serve_desk<R: Wait, D: Desk>(
    rt: &R,
    lock: &Turns<Account, Booking>,
    pass: &mut Pass<Booking>,
    desk: &mut D,
    clerk: u32,
) -> bool
    requires lock { pass.old.lock ≡ Some lock.now }
    requires ready { pass.old.standing ≡ Ready }
    ensures { HasServed lock.now clerk result pass.old pass.new (D.told desk.old)
        (D.told desk.new) }
{
    'orders: while pass.left() > 0 {
        let Some((reading, order)) = desk.next() else {
            return false;
        };
        let reply = visit(rt, lock, pass, clerk, reading, order);
        desk.take(reply);
    }
    true
}

/// The same at a seat.
fn serve_seat<R: Wait, D: Desk>(
    rt: &R,
    lock: &Turns<Account, Booking>,
    seat: &mut Seat,
    desk: &mut D,
    clerk: u32,
)
    requires { IsSeated lock.now seat.old }
    ensures { AtDesk lock.now clerk seat.old seat.new (D.told desk.old) (D.told desk.new) }
{
    seat.spent = serve_desk(rt, lock, &mut seat.pass, desk, clerk);
}

/// A clerk for each desk, by halves. The desk at place k is the one of the clerk `first + k`.
#[cycle(desks)]
pub(crate) fn serve_desks<R: Threads + Wait + Sync, D: Desk + Send>(
    rt: &R,
    lock: &Turns<Account, Booking>,
    seats: &mut [Seat],
    desks: &mut [D],
    first: u32,
)
    requires same { length desks.old ≡ length seats.old }
    requires some { 1 ≤ length seats.old }
    requires numbers { first + length seats.old ≤ 2 ^ 32 }
    requires seated { All (λ s. IsSeated lock.now s) seats.old }
    ensures { EachServed D.told lock.now first seats.old seats.new desks.old desks.new }
{
    if seats.len() == 1 {
        serve_seat(rt, lock, &mut seats[0], &mut desks[0], first);
        return;
    }
    let half = seats.len() / 2;
    let middle = first + half as u32;
    let (front_seats, back_seats) = seats.split_at_mut(half);
    let (front_desks, back_desks) = desks.split_at_mut(half);
    join_mut(
        rt,
        &mut ||
            requires { IsSync R.row × (length front_desks.now ≡ length front_seats.now)
                × (1 ≤ length front_seats.now) × (first + length front_seats.now ≤ 2 ^ 32)
                × All (λ s. IsSeated lock.now s) front_seats.now }
            ensures { EachServed D.told lock.entry.now first front_seats.entry.now
                front_seats.exit.now front_desks.entry.now front_desks.exit.now }
        { serve_desks(rt, lock, front_seats, front_desks, first) },
        &mut ||
            requires { IsSync R.row × (length back_desks.now ≡ length back_seats.now)
                × (1 ≤ length back_seats.now) × (middle + length back_seats.now ≤ 2 ^ 32)
                × All (λ s. IsSeated lock.now s) back_seats.now }
            ensures { EachServed D.told lock.entry.now middle back_seats.entry.now
                back_seats.exit.now back_desks.entry.now back_desks.exit.now }
        { serve_desks(rt, lock, back_seats, back_desks, middle) },
    );
}

/// A clerk for each post, all at once. The post at place k is the one of the clerk `first + k`.
pub fn serve_posts<R: Threads + Wait + Sync, G: Counter + Send, C: Clock + Send>(
    rt: &R,
    lock: &Turns<Account, Booking>,
    seats: &mut [Seat],
    posts: &mut [Post<G, C>],
    first: u32,
)
    requires same { length posts.old ≡ length seats.old }
    requires some { 1 ≤ length seats.old }
    requires numbers { first + length seats.old ≤ 2 ^ 32 }
    requires seated { All (λ s. IsSeated lock.now s) seats.old }
    ensures { EachServed
        (λ p. told_of (G.answers p.counter) (C.readings p.clock) (G.replies p.counter))
        lock.now first seats.old seats.new posts.old posts.new }
{
    serve_desks(rt, lock, seats, posts, first);
}
