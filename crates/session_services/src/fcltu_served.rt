// A bound FCLTU instance in a session (CCSDS 912.1-B).
ghost use Rattle.std.specs.Prelude.{◌≡◌, ◌+◌, ◌<◌, ◌≤◌, ◌++◌, length};
ghost use Rattle.std.specs.Option.{option_map_or};
ghost use Rattle.cds_time.specs.declared.cds.TheConstants.{MOMENT_END};
ghost use Rattle.isp1_tml.specs.Message.{spelling, pdu};
ghost use Rattle.fcltu_service.specs.Invocation.{invocation_of as asked_of};
ghost use Rattle.fcltu_service.specs.Returns.{return_of, return_octets, ReturnFits};
ghost use Rattle.fcltu_service.specs.Service.{after_report};
ghost use Rattle.session_services.specs.Telling.{Message};
ghost use Rattle.session_services.specs.Service.{invocation_of};
ghost use Rattle.session_services.specs.FcltuServed.{fcltu_asked, fcltu_outcome, fcltu_returned};
ghost use Rattle.session_services.specs.FcltuServed.{view_due, fcltu_told, fcltu_notified};

use crate::block::Block;
use crate::service::Invocation;
use crate::signature::{Signature, signed_with};
use assoc_core::Outcome;
use cltu_queue::{Notice, UplinkView};
use fcltu_service::{CltuAnswer, CltuInvocation, CltuReturn, Fcltu, notify, status_report};

/// What an invocation asks of it.
pub fn fcltu_asked<'a>(invocation: &Invocation<'a>) -> CltuInvocation<'a>
    ensures { asked_of result ≡ fcltu_asked (invocation_of invocation.now) }
{
    match invocation {
        Invocation::CltuStart(start) => CltuInvocation::Start(*start),
        Invocation::Transfer(transfer) => CltuInvocation::Transfer(*transfer),
        Invocation::Throw(throw) => CltuInvocation::Throw(*throw),
        Invocation::Stop(_) => CltuInvocation::Stop,
        Invocation::Schedule(schedule) => CltuInvocation::Report(schedule.report),
        Invocation::Get(get) => CltuInvocation::Get(get.name),
        Invocation::ReturnStart(_) | Invocation::Undecoded(_) => CltuInvocation::Nothing,
    }
}

/// What an answer makes of the association.
pub fn fcltu_outcome(answer: &CltuAnswer) -> Outcome
    ensures { result ≡ fcltu_outcome answer.now }
{
    match answer {
        CltuAnswer::Start(Ok(_)) => Outcome::Started,
        CltuAnswer::Stop => Outcome::Stopped,
        _ => Outcome::Kept,
    }
}

// Makes a return the block.
fn put_pdu(block: &mut Block, answer: &CltuReturn<'_>)
    requires { ReturnFits (return_of answer.now) }
    ensures { block.new ≡ spelling (pdu (return_octets (return_of answer.now))) }
{
    match answer {
        CltuReturn::Start(answer) => block.put(answer),
        CltuReturn::Stop(answer) => block.put(answer),
        CltuReturn::Transfer(answer) => block.put(answer),
        CltuReturn::Throw(answer) => block.put(answer),
        CltuReturn::Report(answer) => block.put(answer),
        CltuReturn::Get(answer) => block.put(answer),
    }
}

/// Makes the return of an answer the block; leaves it where there is none.
#[tactic(auto, using(crate::proofs::FcltuServed::with_return, crate::proofs::FcltuServed::without_return))]
pub fn put_fcltu_answer(
    block: &mut Block,
    signature: &Option<Signature>,
    invoke: u16,
    answer: CltuAnswer,
)
    ensures { block.new ≡ option_map_or (λ (message : Message). spelling (message signature.now))
        (fcltu_returned answer invoke) block.old }
{
    if let Some(told) = answer.returned(signed_with(signature), invoke) {
        put_pdu(block, &told);
    }
}

/// The view that a status report tells, where one is due; it is then given.
pub fn fcltu_view_due(fcltu: &mut Fcltu, view: &UplinkView, now: u128) -> Option<UplinkView>
    requires { now < MOMENT_END }
    ensures due { result ≡ view_due fcltu.old now view.now }
    ensures after { fcltu.new ≡ after_report fcltu.old now }
{
    if fcltu.report(now) { Some(*view) } else { None }
}

/// Appends a status report of a view to the block.
pub fn add_fcltu_report(block: &mut Block, signature: &Option<Signature>, view: UplinkView)
    requires { length block.old ≤ 3064 }
    ensures added { block.new ≡ block.old ++ spelling (fcltu_told view signature.now) }
    ensures few { length block.new ≤ length block.old + 1032 }
{
    block.add(&status_report(signed_with(signature), view));
}

/// Appends a notice to the block.
pub fn add_fcltu_notice(block: &mut Block, signature: &Option<Signature>, notice: Notice)
    requires { length block.old ≤ 3064 }
    ensures { block.new ≡ block.old ++ spelling (fcltu_notified notice signature.now) }
{
    block.add(&notify(signed_with(signature), notice));
}
