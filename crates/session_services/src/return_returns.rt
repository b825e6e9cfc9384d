// What a bound instance of a return service tells in a session (CCSDS 911.1-B and 911.2-B): its
// returns, and the message of its buffer.
ghost use Rattle.std.specs.Prelude.{◌≡◌, IsTrue, Ok, option_copied};
ghost use Rattle.std.specs.Option.{option_map, option_map_or};
ghost use Rattle.sle_common.specs.Answer.{confirmation};
ghost use Rattle.frame_select.specs.Item.{items_of};
ghost use Rattle.return_pdu.specs.Starting.{start_return};
ghost use Rattle.return_pdu.specs.Stopping.{stop_return};
ghost use Rattle.return_pdu.specs.Scheduling.{schedule_return};
ghost use Rattle.return_pdu.specs.Getting.{parameter_answer, parameter_return};
ghost use Rattle.return_pdu.specs.Seen.{start_return_of, stop_return_of, schedule_return_of};
ghost use Rattle.return_pdu.specs.Seen.{parameter_return_of};
ghost use Rattle.return_service.specs.Answer.{AnswerFits};
ghost use Rattle.buffer_message.specs.Fitting.{fits_message};
ghost use Rattle.buffer_message.specs.Signing.{signing_of};
ghost use Rattle.buffer_message.specs.Measured.{HasMoment};
ghost use Rattle.isp1_tml.specs.Message.{spelling};
ghost use Rattle.session_services.specs.Telling.{Message, spelled};
ghost use Rattle.session_services.specs.ReturnServed.{outcome_of, returned, item_signing};
ghost use Rattle.session_services.specs.ReturnServed.{buffer_fixed, buffer_where};

use crate::block::Block;
use crate::outgoing::Outgoing;
use crate::signature::{Signature, own_secret, signed_with};
use assoc_core::{Outcome, PduKind, is_asked};
use buffer_message::{BufferMessage, Signer};
use frame_select::Item;
use isp1_auth::RandomNumbers;
use return_pdu::{
    ParameterReturn, ReturnAnswer, ReturnKind, ScheduleReturn, StartReturn, StopReturn,
};
use sle_common::{Diagnostic, Parameter};
use station_config::{Peer, Site};

/// What an answer makes of the association.
pub fn return_outcome(answer: &ReturnAnswer) -> Outcome
    ensures { result ≡ outcome_of answer.now }
{
    match answer {
        ReturnAnswer::Start(Ok(())) => Outcome::Started,
        ReturnAnswer::Stop => Outcome::Stopped,
        _ => Outcome::Kept,
    }
}

// A return of START.
fn start_return(
    signature: &Option<Signature>,
    invoke: u16,
    done: Result<(), Diagnostic>,
) -> StartReturn<'_>
    requires { confirmation.Fits done }
    ensures seen { start_return_of result ≡ record {
      credentials = signature.now;
      invoke = invoke;
      result = done;
    } }
    ensures fits { start_return.Fits (start_return_of result) }
{
    StartReturn {
        credentials: signed_with(signature),
        invoke,
        result: done,
    }
}

// A return of STOP.
fn stop_return(signature: &Option<Signature>, invoke: u16) -> StopReturn<'_>
    ensures seen { stop_return_of result ≡ record {
      credentials = signature.now;
      invoke = invoke;
      result = Ok tt;
    } }
    ensures fits { stop_return.Fits (stop_return_of result) }
{
    StopReturn {
        credentials: signed_with(signature),
        invoke,
        result: Ok(()),
    }
}

// A return of SCHEDULE-STATUS-REPORT.
fn schedule_return(
    signature: &Option<Signature>,
    invoke: u16,
    done: Result<(), Diagnostic>,
) -> ScheduleReturn<'_>
    requires { confirmation.Fits done }
    ensures seen { schedule_return_of result ≡ record {
      credentials = signature.now;
      invoke = invoke;
      result = done;
    } }
    ensures fits { schedule_return.Fits (schedule_return_of result) }
{
    ScheduleReturn {
        credentials: signed_with(signature),
        invoke,
        result: done,
    }
}

// A return of GET-PARAMETER.
fn parameter_return(
    signature: &Option<Signature>,
    invoke: u16,
    outcome: Result<Parameter, Diagnostic>,
) -> ParameterReturn<'_>
    requires { parameter_answer.Fits outcome }
    ensures seen { parameter_return_of result ≡ record {
      credentials = signature.now;
      invoke = invoke;
      result = outcome;
    } }
    ensures fits { parameter_return.Fits (parameter_return_of result) }
{
    ParameterReturn {
        credentials: signed_with(signature),
        invoke,
        result: outcome,
    }
}

/// Makes the return of an answer the block; leaves it where there is none.
pub fn put_return_answer(
    block: &mut Block,
    signature: &Option<Signature>,
    invoke: u16,
    answer: ReturnAnswer,
)
    requires { AnswerFits answer }
    ensures { block.new ≡ option_map_or (λ (message : Message). spelling (message signature.now))
        (returned answer invoke) block.old }
{
    match answer {
        ReturnAnswer::Nothing => {}
        ReturnAnswer::Start(done) => block.put(&start_return(signature, invoke, done)),
        ReturnAnswer::Stop => block.put(&stop_return(signature, invoke)),
        ReturnAnswer::Report(done) => block.put(&schedule_return(signature, invoke, done)),
        ReturnAnswer::Get(outcome) => block.put(&parameter_return(signature, invoke, outcome)),
    }
}

// ---- the message of a buffer

// Who signs its items at a moment: this provider, where the peer's level asks for that.
pub(crate) fn signer_to<'a>(site: &'a Site, peer: Option<&Peer>, now: u128) -> Option<Signer<'a>>
    ensures { option_map signing_of result
        ≡ item_signing site.now (option_copied peer.entry) now }
{
    let peer = peer?;
    if !is_asked(peer.level, PduKind::Report) {
        return None;
    }
    Some(Signer {
        secret: own_secret(site, peer),
        moment: now,
    })
}

// Makes the message of items.
fn put_items(
    outgoing: &mut Outgoing,
    numbers: &mut RandomNumbers,
    service: ReturnKind,
    items: &[Item],
    signer: Option<Signer<'_>>,
)
    requires items { IsTrue (fits_message (items_of items.now)) }
    requires moment { HasMoment (option_map signing_of signer) }
    ensures outgoing { outgoing.new ≡ spelled (buffer_fixed service
        (option_map signing_of signer.entry) numbers.old (items_of items.now)).message }
    ensures numbers { numbers.new ≡ (buffer_fixed service
        (option_map signing_of signer.entry) numbers.old (items_of items.now)).numbers }
{
    match signer {
        Some(signer) => {
            outgoing.put(&BufferMessage::signed(service, items, signer, numbers));
        }
        None => outgoing.put(&BufferMessage::unsigned(service, items)),
    }
}

// Makes the message of a buffer, where one is to be offered and its items go into one message; else
// none.
pub(crate) fn put_buffer(
    outgoing: &mut Outgoing,
    numbers: &mut RandomNumbers,
    service: ReturnKind,
    offers: bool,
    items: &[Item],
    signer: Option<Signer<'_>>,
)
    requires moment { HasMoment (option_map signing_of signer) }
    ensures outgoing { outgoing.new ≡ spelled (buffer_where offers service
        (option_map signing_of signer.entry) numbers.old (items_of items.now)).message }
    ensures numbers { numbers.new ≡ (buffer_where offers service
        (option_map signing_of signer.entry) numbers.old (items_of items.now)).numbers }
{
    if offers && BufferMessage::fits(items) {
        put_items(outgoing, numbers, service, items, signer);
    } else {
        outgoing.clear();
    }
}
