// A talk by the words of a command line.
ghost use Rattle.std.specs.Prelude.{◌≡◌, IsTrue, false, true};
ghost use Rattle.std.specs.List.{list_all};
ghost use Rattle.user_talk.specs.Closed.{TalkedTo};
ghost use Rattle.user_talk.specs.Running.{world};
ghost use Rattle.user_task.specs.Fitting.{fits_line, fits_task};
ghost use Rattle.user_task.specs.Work.{is_show};
ghost use Rattle.user_words.specs.Plan.{FitsTalk};
ghost use Rattle.user_service.specs.Sending.{task_of, work_of};
ghost use Rattle.user_service.specs.Service.{Sends};
ghost use Rattle.user_service.specs.Streams.{Streams};

use crate::kit::UserKit;
use crate::unsent::cltus_for;
use cds_time::Clock;
use link_model::Link;
use octet_core::{Sink, Source};
use std::alloc::Global;
use user_core::laws;
use user_show::Ending;
use user_talk::{EndRequest, talk};
use user_task::{Cltus, Task, Work};
use user_words::{Asked, Identity};

// What a user is to do.
#[derive(Drop)]
pub(crate) struct Order {
    pub identity: Identity,
    pub asked: Asked,
    // How many polls it makes at most.
    pub turns: u64,
}

fn work_of(asked: Asked, cltus: Cltus) -> Work
    ensures { result ≡ work_of asked cltus }
{
    match asked {
        Asked::Raf {
            start,
            stop,
            quality,
            report,
        } => Work::Raf {
            start,
            stop,
            quality,
            report,
        },
        Asked::Rcf {
            start,
            stop,
            channel,
            report,
        } => Work::Rcf {
            start,
            stop,
            channel,
            report,
        },
        Asked::Cltu { first, report } => Work::Cltu {
            first,
            cltus,
            report,
        },
    }
}

impl Order {
    // The task with these CLTUs. The numbers of its credentials begin from `draw`.
    #[tactic(auto, using(crate::proofs::Fitting::task_fits, crate::proofs::Fitting::task_invokes))]
    fn task(self, draw: u32, cltus: Cltus) -> Task
        requires order { FitsTalk self.identity self.asked self.turns }
        requires cltus { list_all fits_line cltus ≡ true }
        ensures task { result ≡ task_of draw self.identity self.asked cltus }
        ensures fits { IsTrue (fits_task result) }
        ensures invokes { is_show result.work ≡ false }
    {
        let Identity {
            name,
            signing,
            instance,
        } = self.identity;
        Task {
            name,
            signing,
            instance,
            draw,
            work: work_of(self.asked, cltus),
        }
    }
}

// Talks over a task that invokes.
fn hold<L: Link, C: Clock, E: EndRequest, O: Sink>(
    alloc: Global,
    task: Task,
    turns: u64,
    link: &mut L,
    clock: &mut C,
    end: &mut E,
    output: &mut O,
) -> Ending
    requires fits { IsTrue (fits_task task) }
    requires invokes { is_show task.work ≡ false }
    ensures talked { TalkedTo L.calls L.faults C.readings E.answers O.written O.faults task turns
        result (world link.old clock.old end.old output.old)
        (world link.new clock.new end.new output.new) }
    ensures streams { Streams L.calls E.answers O.written task turns result
        (world link.old clock.old end.old output.old)
        (world link.new clock.new end.new output.new) }
{
    laws::lines_in_order();
    talk(alloc, task, turns, link, clock, end, output)
}

// Does an order, over an input that has the CLTUs where they are asked for.
pub(crate) fn send<I: Source, O: Sink, L: Link, C: Clock, E: EndRequest>(
    alloc: Global,
    order: Order,
    kit: &mut UserKit<I, O, L, C, E>,
    mut link: L,
) -> Ending
    requires { FitsTalk order.identity order.asked order.turns }
    ensures { Sends I.left I.faults O.written O.faults L.calls L.faults C.readings E.answers
        order.identity order.asked order.turns result link kit.old kit.new }
{
    match cltus_for(alloc, order.asked, &mut kit.input) {
        Ok(cltus) => {
            let turns = order.turns;
            let task = order.task(kit.draw, cltus);
            let ending = hold(
                alloc,
                task,
                turns,
                &mut link,
                &mut kit.clock,
                &mut kit.end,
                &mut kit.output,
            );
            kit.link = Some(link);
            ending
        }
        Err(why) => {
            kit.link = Some(link);
            why.tell(alloc, &mut kit.output)
        }
    }
}
