// A talk from its first turn to its last line.
ghost use Rattle.std.specs.Prelude.{IsTrue};
ghost use Rattle.user_task.specs.Fitting.{fits_task};
ghost use Rattle.user_talk.specs.Running.{world, Talked};
ghost use Rattle.user_talk.specs.Closed.{TalkedTo};

use crate::end::End;
use crate::end_request::EndRequest;
use crate::rounds::{make_turn, rounds};
use crate::turn::Talk;
use cds_time::Clock;
use link_model::Link;
use octet_core::Sink;
use std::alloc::Global;
use user_core::Heard;
use user_show::Ending;
use user_task::Task;

// A talk up to its end.
fn run<L: Link, C: Clock, E: EndRequest, O: Sink>(
    alloc: Global,
    task: Task,
    turns: u64,
    link: &mut L,
    clock: &mut C,
    end: &mut E,
    output: &mut O,
) -> End
    requires { IsTrue (fits_task task) }
    ensures { Talked L.calls L.faults C.readings E.answers O.written O.faults task turns result
        (world link.old clock.old end.old output.old)
        (world link.new clock.new end.new output.new) }
{
    let mut talk = Talk::new(alloc, task);
    match make_turn(&mut talk, Heard::Nothing, link, clock, end, output) {
        Some(over) => over,
        None => rounds(&mut talk, turns, link, clock, end, output),
    }
}

/// Does a task over a link in so many polls at most, prints what it hears, and answers how the
/// program ends. One who receives frames ends in good order once `end` asks for it.
pub fn talk<L: Link, C: Clock, E: EndRequest, O: Sink>(
    alloc: Global,
    task: Task,
    turns: u64,
    link: &mut L,
    clock: &mut C,
    end: &mut E,
    output: &mut O,
) -> Ending
    requires { IsTrue (fits_task task) }
    ensures { TalkedTo L.calls L.faults C.readings E.answers O.written O.faults task turns result
        (world link.old clock.old end.old output.old)
        (world link.new clock.new end.new output.new) }
{
    run(alloc, task, turns, link, clock, end, output).close(output)
}
