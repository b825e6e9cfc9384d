// What the words of a command line ask for is done.
ghost use Rattle.user_line.specs.Line.{texts_of};
ghost use Rattle.user_words.specs.Plan.{asked_of_line, FitsPlan, FitsTalk};
ghost use Rattle.user_service.specs.Service.{Converses, Serves, Served};

use crate::kit::UserKit;
use crate::sending::{Order, send};
use cds_time::Clock;
use link_model::Link;
use octet_core::{Sink, Source};
use std::alloc::Global;
use std::mem;
use user_show::{Ending, end_with, show};
use user_talk::EndRequest;
use user_words::Plan;

/// Does what the words of a command line ask for, the program's name left away, and answers how the
/// program ends.
pub fn use_service<I: Source, O: Sink, L: Link, C: Clock, E: EndRequest>(
    alloc: Global,
    words: &[&str],
    kit: &mut UserKit<I, O, L, C, E>,
) -> Ending
    ensures { Served I.left I.faults O.written O.faults L.calls L.faults C.readings E.answers
        (asked_of_line (texts_of words.now)) result kit.old kit.new }
{
    match Plan::read(alloc, words) {
        Ok(Some(plan)) => serve(alloc, plan, kit),
        Ok(None) => end_with(b"usage\n", Ending::Usage, &mut kit.output),
        Err(_) => Ending::Memory,
    }
}

// Does what a plan says.
fn serve<I: Source, O: Sink, L: Link, C: Clock, E: EndRequest>(
    alloc: Global,
    plan: Plan,
    kit: &mut UserKit<I, O, L, C, E>,
) -> Ending
    requires { FitsPlan plan }
    ensures { Serves I.left I.faults O.written O.faults L.calls L.faults C.readings E.answers
        (Some plan) result kit.old kit.new }
{
    match plan {
        Plan::Show { service } => show(alloc, service, &mut kit.input, &mut kit.output),
        Plan::Talk {
            identity,
            asked,
            turns,
            ..
        } => {
            let order = Order {
                identity,
                asked,
                turns,
            };
            converse(alloc, order, kit)
        }
    }
}

// Talks over the link, where there is one.
fn converse<I: Source, O: Sink, L: Link, C: Clock, E: EndRequest>(
    alloc: Global,
    order: Order,
    kit: &mut UserKit<I, O, L, C, E>,
) -> Ending
    requires { FitsTalk order.identity order.asked order.turns }
    ensures { Converses I.left I.faults O.written O.faults L.calls L.faults C.readings E.answers kit.old.link
        order.identity order.asked order.turns result kit.old kit.new }
{
    match mem::replace(&mut kit.link, None) {
        Some(link) => send(alloc, order, kit, link),
        None => end_with(b"link fault\n", Ending::LinkFault, &mut kit.output),
    }
}
