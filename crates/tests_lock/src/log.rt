// A list under the lock, and a line that is written into it in a turn.
ghost use Rattle.std.specs.Prelude.{◌≡◌, ◌+◌, ◌<◌, ◌≤◌, ◌∷◌, ◌++◌, OnOk, OnErr, IfOk, Some};
ghost use Rattle.std.specs.Prelude.{map};
ghost use Rattle.turn_lock.specs.declared.pass.Standing.TheVariants.{Ready};
ghost use Rattle.turn_lock.specs.Own.{mark};
ghost use mathlib.Core.List.{[]};

use std::alloc::{AllocError, Global};
use std::rt::Clock;
use std::sync::Wait;
use std::time::Duration;
use std::{hint, thread};
use turn_lock::{HistoryEvent, LockFault, Names, Pass, StandsFor, Turn, Turns};

/// A line was written. It is no value of the program, and can't be dropped.
pub struct Line {
    pub by: u32,
}

impl HistoryEvent for Line {
    type Origin = u32;
}

/// A list that threads write into.
#[derive(Drop)]
pub struct Log {
    pub name: u32,
    pub lines: Vec<u32>,
}

impl StandsFor<Line> for Log {
    ghost use Rattle.std.specs.Prelude.{◌≡◌, map};

    ghost origin = { λ log. log.name };

    ghost stands = { λ log lines. log.lines.items ≡ map (λ l. l.by) lines };
}

impl Log {
    /// Writes a line.
    pub fn push(&mut self, by: u32) -> Result<(), AllocError>
        ensures name { self.new.name ≡ self.old.name }
        ensures ok { OnOk result (self.new.lines.items ≡ self.old.lines.items ++ by ∷ []) }
        ensures err { OnErr result (self.new.lines.items ≡ self.old.lines.items) }
    {
        self.lines.push(by)?;
        Ok(())
    }
}

/// A lock over a list without lines, with so many turns.
pub fn lock_of(alloc: Global, turns: u64) -> Result<(Turns<Log, Line>, Pass<Line>), LockFault>
    requires { (1 ≤ turns) × (turns ≤ 2000) }
    ensures { IfOk result (λ r. (r.1.lock ≡ Some r.0) × (r.1.standing ≡ Ready)
        × (r.1.left ≡ turns)) }
{
    let log = Log {
        name: 7,
        lines: Vec::new(alloc),
    };
    Turns::new(alloc, log, turns)
}

/// Who wrote a line, which names it.
#[derive(Drop)]
pub struct Author {
    pub name: u32,
}

impl Names<Line> for Author {
    ghost named = { λ author. record { by = author.name } };
}

// Ends a turn in which the line was written.
fn commit_line(lock: &Turns<Log, Line>, pass: &mut Pass<Line>, turn: Turn<Log, Line>, by: u32)
    ghost line: { Line }
    requires lock { pass.old.lock ≡ Some lock.now }
    requires turn { turn.pass ≡ pass.old }
    requires name { turn.value.name ≡ lock.now.origin }
    requires by { line.by ≡ by }
    requires line { turn.value.lines.items ≡ map (λ l. l.by) (turn.list ++ line ∷ []) }
    ensures { pass.new ≡ record pass.old {
      standing = Ready;
      seen = turn.list ++ line ∷ [];
      own = pass.old.own ++ mark turn.list line ∷ [];
    } }
{
    lock.commit(pass, turn);
}

/// How long a turn is held.
#[derive(Clone, Copy)]
pub enum Hold {
    /// For a time.
    Time(Duration),
    /// For so many looks of one who waits.
    Looks(u64),
}

impl Hold {
    fn pass<R: Clock>(self, rt: &R) {
        match self {
            Hold::Time(time) => thread::sleep(rt, time),
            Hold::Looks(looks) => {
                for _ in 0..looks {
                    hint::spin_loop();
                }
            }
        }
    }
}

/// Writes a line in a turn that is held for so long, or leaves it where there is no memory.
pub fn write_line<R: Wait + Clock>(
    rt: &R,
    lock: &Turns<Log, Line>,
    pass: &mut Pass<Line>,
    by: u32,
    hold: Hold,
) -> Result<(), AllocError>
    requires lock { pass.old.lock ≡ Some lock.now }
    requires ready { (pass.old.standing ≡ Ready) × (0 < pass.old.left) }
    ensures { (pass.new.lock ≡ Some lock.now) × (pass.new.standing ≡ Ready)
        × (pass.new.left + 1 ≡ pass.old.left) }
{
    let mut turn = lock.enter(rt, pass);
    hold.pass(rt);
    match turn.value_mut().push(by) {
        Ok(()) => {
            commit_line(lock, pass, turn, by);
            Ok(())
        }
        Err(e) => {
            lock.leave(pass, turn);
            Err(e)
        }
    }
}
