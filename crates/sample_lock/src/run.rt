// All clerks at once, from the opening of the account to its closing.
ghost use Rattle.std.specs.Prelude.{◌≡◌, ◌+◌, ◌*◌, ◌^◌, ◌≤◌, [], ◌∷◌, ◌++◌, length, vec_len, All};
ghost use Rattle.std.specs.Prelude.{IfOk};
ghost use Rattle.turn_lock.specs.Own.{MakeUp};
ghost use Rattle.sample_lock.specs.Ledger.{opened, StandsAs};
ghost use Rattle.sample_lock.specs.Served.{IsSeated};
ghost use Rattle.sample_lock.specs.Team.{IsReady, IsFresh, IsVacant, IsIdle, EachDid, owns_of};
ghost use Rattle.sample_lock.specs.Team.{turns_of};

use crate::account::Account;
use crate::booking::Booking;
use crate::desk::Desk;
use crate::seat::Seat;
use crate::serve::serve_desks;
use std::alloc::Global;
use std::sync::Wait;
use std::thread::Threads;
use turn_lock::{LockFault, Pass, Turns};

/// Seats for so many clerks, each with so many turns of the pass.
fn seat_all(
    alloc: Global,
    lock: &Turns<Account, Booking>,
    pass: &mut Pass<Booking>,
    count: usize,
    turns: u64,
) -> Result<Vec<Seat>, LockFault>
    requires lock { IsFresh lock.now pass.old }
    requires turns { count * turns ≤ pass.old.left }
    ensures pass { IsFresh lock.now pass.new }
    ensures seats { IfOk result (λ seats. (vec_len seats ≡ count)
        × All (λ s. IsVacant lock.now turns s) seats.items) }
    ensures turns { IfOk result (λ seats. turns_of seats.items + pass.new.left + pass.new.entered
        ≡ pass.old.left + pass.old.entered) }
{
    let mut seats = Vec::with_capacity(alloc, count)?;
    for _place in 0..count {
        let pass = lock.split(pass, turns)?;
        seats.push_reserved(Seat { pass, spent: false });
    }
    Ok(seats)
}

/// Takes the passes of all seats in, the first one first.
fn gather(lock: &Turns<Account, Booking>, pass: &mut Pass<Booking>, seats: Vec<Seat>)
    requires lock { IsReady lock.now pass.old }
    requires seats { All (λ s. IsIdle lock.now s) seats.items }
    ensures lock { IsReady lock.now pass.new }
    ensures own { pass.new.own ≡ pass.old.own }
    ensures joined { pass.new.joined ≡ pass.old.joined ++ owns_of seats.items }
    ensures turns { pass.new.left + pass.new.entered
        ≡ pass.old.left + pass.old.entered + turns_of seats.items }
{
    for seat in seats {
        lock.join(pass, seat.pass);
    }
}

/// A clerk for each desk, at the seats of a vector, which have all their turns.
fn serve_seats<R: Threads + Wait + Sync, D: Desk + Send>(
    rt: &R,
    lock: &Turns<Account, Booking>,
    seats: &mut Vec<Seat>,
    desks: &mut [D],
    turns: u64,
)
    requires same { length desks.old ≡ vec_len seats.old }
    requires some { (1 ≤ vec_len seats.old) × (vec_len seats.old ≤ 2 ^ 32) }
    requires seats { All (λ s. IsVacant lock.now turns s) seats.old.items }
    ensures idle { All (λ s. IsIdle lock.now s) seats.new.items }
    ensures turns { turns_of seats.new.items ≡ turns_of seats.old.items }
    ensures did { EachDid D.told turns 0 (owns_of seats.new.items) desks.old desks.new }
{
    let all = seats.as_mut_slice();
    serve_desks(rt, lock, all, desks, 0);
}

/// Serves all desks at once, each by a clerk that makes so many calls at most, and closes the
/// account. The pass tells the history, and which events each clerk has as its own, the first
/// desk's first.
pub fn run_desks<R: Threads + Wait + Sync, D: Desk + Send>(
    rt: &R,
    alloc: Global,
    account: Account,
    desks: &mut [D],
    turns: u64,
) -> Result<(Account, Pass<Booking>), LockFault>
    requires new { account ≡ opened account.opening }
    requires desks { (1 ≤ length desks.old) × (length desks.old ≤ 2 ^ 32) }
    requires turns { (1 ≤ turns) × (length desks.old * turns ≤ 2 ^ 62) }
    ensures account { IfOk result (λ r. (r.0.opening ≡ account.opening) × StandsAs r.0 r.1.seen) }
    ensures clerks { IfOk result (λ r. EachDid D.told turns 0 r.1.joined desks.old desks.new) }
    ensures make_up { IfOk result (λ r. (r.1.own ≡ []) × MakeUp r.1.seen ([] ∷ r.1.joined)) }
{
    let count = desks.len();
    let (lock, mut pass): (Turns<Account, Booking>, Pass<Booking>) = Turns::new(
        alloc,
        account,
        count as u64 * turns,
    )?;
    let mut seats = seat_all(alloc, &lock, &mut pass, count, turns)?;
    serve_seats(rt, &lock, &mut seats, desks, turns);
    gather(&lock, &mut pass, seats);
    let Ok(closed) = lock.close(pass) else {
        unreachable!()
    };
    Ok(closed)
}
