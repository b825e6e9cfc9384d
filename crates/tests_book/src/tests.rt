// The book by scripts.
//
// A line of a script is a reading, a door, a call with its numbers, `=` and the answer.
ghost use Rattle.std.specs.Prelude.{◌≡◌};

use book_desk::{BookDesk, book_of};
use call::call_of;
use octet_core::Memory;
use station_book::Book;
use std::alloc::Global;
use std::test::Fail;

mod book_desk;
mod call;
mod fields;
mod steps;

// The first line of a script that isn't answered so.
fn wrong_line<'a>(alloc: Global, script: &'a str) -> Result<Option<&'a str>, Memory> {
    let mut desk = BookDesk::new(alloc)?;
    for line in script.lines() {
        let (words, answer) = line.split_once('=').unwrap_or((line, ""));
        let told = desk.call(&call_of(words))?;
        let text = format!(in alloc; "{told:?}")?;
        if text.as_str() != answer {
            return Ok(Some(line));
        }
    }
    Ok(None)
}

#[test]
fn scripts_are_answered_so(rt: HostRuntime) -> Result<(), Fail> {
    for script in [
        LOST,
        LOST_IN_A_RUN,
        BOUND,
        UNBOUND,
        QUIT,
        NOTICES,
        MOMENTS,
        LOOKS,
        FOREIGN,
    ] {
        assert_eq!(rt; wrong_line(rt.alloc(), script)?, None);
    }
    Ok(())
}

// Ends the antenna's worker and the only other one, and tells whether all were gone before and
// behind the last.
fn end_both(book: &mut Book) -> (bool, bool)
    requires { book.old.opening.workers ≡ 1 }
{
    book.gone(1);
    let early = book.all_gone();
    book.gone(0);
    (early, book.all_gone())
}

#[test]
fn all_are_gone_when_each_is(rt: HostRuntime) -> Result<(), Fail> {
    let mut book = book_of(rt.alloc(), 1)?;
    assert_eq!(rt; end_both(&mut book), (false, true));
    Ok(())
}

// An ask that doesn't fit the binding is lost.
const LOST: &str = "\
5 1 unbind=Said(Lost)
5 1 bind 3=Said(Lost)
5 1 start 0=Said(Lost)
5 1 transfer 0=Said(Lost)
5 1 stop=Said(Lost)
5 1 bind 0=Said(Bound)
5 1 bind 0=Said(Lost)
5 1 bind 2=Said(Lost)
5 1 start 0=Said(Lost)
5 2 bind 1=Said(Bound)
5 2 transfer 0=Said(Lost)
5 2 stop=Said(Lost)
5 2 start 7=Said(Started { now: 5 })
5 2 start 7=Said(Lost)
5 1 transfer 7=Said(Lost)
5 1 stop=Said(Lost)
5 2 transfer 7=Said(Taken { room: Room { next: 8, free: 2 } })
5 2 stop=Said(Stopped)
5 2 stop=Said(Lost)
";

// A lost ask changes the latest moment alone.
const LOST_IN_A_RUN: &str = "\
5 2 bind 1=Said(Bound)
5 2 start 7=Said(Started { now: 5 })
5 2 transfer 7=Said(Taken { room: Room { next: 8, free: 2 } })
6 0 uplink 1 3=Fine
9 2 start 1=Said(Lost)
9 1 stop=Said(Lost)
9 1 transfer 8=Said(Lost)
0 0 view=Queue(9, 2, Configured)
0 2 nothing=Said(Nothing)
0 2 transfer 8=Said(Taken { room: Room { next: 9, free: 1 } })
";

// An instance has one door.
const BOUND: &str = "\
5 1 bind 0=Said(Bound)
5 2 bind 0=Said(AlreadyBound)
5 2 unbind=Said(Lost)
5 2 bind 2=Said(Bound)
5 1 unbind=Said(Unbound)
5 2 unbind=Said(Unbound)
5 2 bind 0=Said(Bound)
5 1 bind 0=Said(AlreadyBound)
5 1 nothing=Said(Nothing)
5 1 quiet=Said(Nothing)
0 2 quit=Fine
5 1 bind 0=Said(Bound)
0 2 quit=Fine
5 2 bind 0=Said(AlreadyBound)
";

// UNBIND ends a run and frees its instance.
const UNBOUND: &str = "\
5 2 bind 1=Said(Bound)
5 2 start 7=Said(Started { now: 5 })
5 2 transfer 7=Said(Taken { room: Room { next: 8, free: 2 } })
5 2 transfer 8=Said(Taken { room: Room { next: 9, free: 1 } })
6 0 take=Radiates(1, 7)
7 2 unbind=Said(Unbound)
0 0 view=Queue(7, 3, Operational)
7 0 take=Idle
7 1 bind 1=Said(Bound)
7 1 transfer 9=Said(Lost)
7 1 start 3=Said(Started { now: 7 })
7 1 transfer 3=Said(Taken { room: Room { next: 4, free: 2 } })
7 0 take=Idle
8 0 done 1 7=Fine
8 1 nothing=Said(Nothing)
8 0 take=Radiates(2, 3)
";

// The quit of a door ends its run alone.
const QUIT: &str = "\
5 1 bind 0=Said(Bound)
5 2 bind 1=Said(Bound)
5 2 start 7=Said(Started { now: 5 })
5 2 transfer 7=Said(Taken { room: Room { next: 8, free: 2 } })
0 1 quit=Fine
0 0 view=Queue(5, 2, Operational)
0 2 quit=Fine
0 0 view=Queue(5, 3, Operational)
5 2 transfer 8=Said(Lost)
";

// A notice is told to the door with the run.
const NOTICES: &str = "\
5 2 bind 1=Said(Bound)
5 2 start 7=Said(Started { now: 5 })
5 2 transfer 7=Said(Taken { room: Room { next: 8, free: 2 } })
6 0 take=Radiates(1, 7)
8 0 done 1 7=Fine
8 1 nothing=Said(Nothing)
8 2 quiet=Said(Nothing)
8 2 start 7=Said(Lost)
8 2 nothing=Told(Nothing, CltuRadiated)
8 2 transfer 8=Told(Taken { room: Room { next: 9, free: 2 } }, BufferEmpty)
8 2 nothing=Said(Nothing)
8 0 take=Radiates(1, 8)
9 0 interrupted 1 8=Fine
9 2 transfer 9=Told(Rejected { diagnostic: UnableToProcess, room: Room { next: 9, free: 3 } }, \
    ProductionInterrupted)
9 0 uplink 0 3=Fine
9 2 nothing=Told(Nothing, ProductionOperational)
9 2 stop=Said(Stopped)
9 0 uplink 3 3=Fine
9 2 start 1=Said(StartRefused { diagnostic: OutOfService })
";

// No reading sets the moment back.
const MOMENTS: &str = "\
9 0 done 0 0=Fine
4 0 interrupted 0 0=Fine
3 0 uplink 0 3=Fine
2 0 take=Idle
0 0 view=Queue(9, 3, Operational)
4 1 bind 1=Said(Bound)
5 1 start 0=Said(Started { now: 9 })
11 1 stop=Said(Stopped)
5 1 start 0=Said(Started { now: 11 })
";

// A look's reading is its stop, and its numbers are the first place and the room. It sees how many
// entries there are, how many items it gives, the place behind them, whether more remain, and
// whether the stop is closed. Frames at odd times are erred, and looks want good ones. A door is
// given the same in an answer.
const LOOKS: &str = "\
0 0 count=Count(0)
0 0 publish 10 11=Fine
0 0 publish 20 20=Fine
0 0 publish 30 31=Fine
0 0 count=Count(6)
0 0 nowhere=Seen(6, 0, 0, false, false)
0 1 nowhere=Seen(6, 0, 0, false, false)
0 0 front=Seen(6, 0, 0, false, false)
0 1 front=Seen(6, 0, 0, false, false)
31 0 look 0 2=Seen(6, 2, 3, true, false)
31 1 look 0 2=Seen(6, 2, 3, true, false)
31 0 look 3 9=Seen(6, 2, 5, false, false)
20 0 look 1 9=Seen(6, 2, 4, false, true)
20 0 look 4 9=Seen(6, 0, 4, false, true)
20 1 look 4 9=Seen(6, 0, 4, false, true)
20 0 look 1 0=Seen(6, 0, 1, true, true)
";

// Entries that don't follow are handed back.
const FOREIGN: &str = "\
0 0 publish 10 20=Fine
0 0 publish 15 30=Foreign(2)
0 0 publish 26 24=Foreign(2)
0 0 front=Seen(2, 0, 0, false, false)
0 0 count=Count(2)
0 0 publish 20 22=Fine
0 0 front=Seen(4, 0, 0, false, false)
40 0 look 0 9=Seen(4, 4, 4, false, false)
";
