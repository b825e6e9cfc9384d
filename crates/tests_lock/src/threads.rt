// Turns of two threads.
ghost use Rattle.std.specs.Prelude.{◌≡◌, ◌≤◌, IfOk, Some};
ghost use Rattle.turn_lock.specs.declared.pass.Standing.TheVariants.{Ready};

use crate::log::{Hold, Line, Log, lock_of, write_line};
use std::alloc::{AllocError, Global};
use std::rt::Clock;
use std::sync::Wait;
use std::test::Fail;
use std::thread::{Threads, join};
use std::time::Duration;
use turn_lock::{Pass, Turns};

// How long turns are held.
#[derive(Clone, Copy)]
enum Holds {
    // Each for a time.
    Time(Duration),
    // One for a look of the other thread, the next for two, and so on up to 250.
    Looks,
}

impl Holds {
    // That of the turn after which so many are left.
    fn of_turn(self, left: u64) -> Hold {
        match self {
            Holds::Time(time) => Hold::Time(time),
            Holds::Looks => Hold::Looks(250 - left % 250),
        }
    }
}

// Writes lines until the pass has no turn left.
fn write_all<R: Wait + Clock>(
    rt: &R,
    lock: &Turns<Log, Line>,
    mut pass: Pass<Line>,
    by: u32,
    holds: Holds,
) -> Result<Pass<Line>, AllocError>
    requires lock { pass.lock ≡ Some lock.now }
    requires ready { pass.standing ≡ Ready }
    ensures { IfOk result (λ p. (p.lock ≡ Some lock.now) × (p.standing ≡ Ready)) }
{
    while pass.left() > 0 {
        let hold = holds.of_turn(pass.left());
        write_line(rt, lock, &mut pass, by, hold)?;
    }
    Ok(pass)
}

// Two threads write into one list, which is handed back.
fn write_by_two<R: Threads + Wait + Clock + Sync>(
    rt: &R,
    lock: Turns<Log, Line>,
    first: Pass<Line>,
    second: Pass<Line>,
    holds: Holds,
) -> Result<Option<Log>, AllocError>
    requires lock { (first.lock ≡ Some lock) × (second.lock ≡ Some lock) }
    requires ready { (first.standing ≡ Ready) × (second.standing ≡ Ready) }
{
    let shared = &lock;
    let (a, b) = join(
        rt,
        move || -> Result<Pass<Line>, AllocError>
            requires { (first.lock ≡ Some shared.now) × (first.standing ≡ Ready) }
            ensures { IfOk result (λ p. (p.lock ≡ Some shared.entry.now) × (p.standing ≡ Ready)) }
        { write_all(rt, shared, first, 1, holds) },
        move || -> Result<Pass<Line>, AllocError>
            requires { (second.lock ≡ Some shared.now) × (second.standing ≡ Ready) }
            ensures { IfOk result (λ p. (p.lock ≡ Some shared.entry.now) × (p.standing ≡ Ready)) }
        { write_all(rt, shared, second, 2, holds) },
    );
    let mut pass = a?;
    lock.join(&mut pass, b?);
    match lock.close(pass) {
        Ok((log, _)) => Ok(Some(log)),
        Err(_) => Ok(None),
    }
}

// A list into which two threads wrote in so many turns each.
fn log_by_two<R: Threads + Wait + Clock + Sync>(
    rt: &R,
    alloc: Global,
    turns: u64,
    holds: Holds,
) -> Result<Log, Fail>
    requires { (1 ≤ turns) × (turns ≤ 1000) }
{
    let (lock, mut pass) = lock_of(alloc, 2 * turns)?;
    let other = lock.split(&mut pass, turns)?;
    let log = write_by_two(rt, lock, pass, other, holds)?;
    Ok(log.ok_or("a pass is outside")?)
}

#[test]
fn two_threads_make_a_hundred_turns_each(rt: HostRuntime) -> Result<(), Fail> {
    let log = log_by_two(&rt, rt.alloc(), 100, Holds::Time(Duration::ZERO))?;
    let first = log.lines.as_slice().iter().filter(|by| **by == 1).count();
    assert_eq!(rt; (first, log.lines.len()), (100, 200));
    Ok(())
}

// While a turn is held the other thread falls asleep. A lock that never wakes it, or looks for
// sleepers before the turn ends, leaves it asleep, and the test doesn't end.
#[test]
fn a_thread_that_waits_for_a_held_turn_is_woken(rt: HostRuntime) -> Result<(), Fail> {
    let log = log_by_two(&rt, rt.alloc(), 6, Holds::Time(Duration::from_millis(5)))?;
    assert_eq!(rt; log.lines.len(), 12);
    Ok(())
}

// A thread that waits falls asleep after its looks. Turns end at each of them and some way behind,
// so that ends and falling asleep meet. A wakeup that is lost leaves a thread asleep, and the test
// doesn't end.
#[test]
fn no_wakeup_is_lost_in_a_thousand_turns_each(rt: HostRuntime) -> Result<(), Fail> {
    let log = log_by_two(&rt, rt.alloc(), 1000, Holds::Looks)?;
    assert_eq!(rt; log.lines.len(), 2000);
    Ok(())
}
