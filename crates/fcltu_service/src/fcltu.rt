// What a bound instance of the service keeps.
ghost use Rattle.std.specs.Prelude.{◌≡◌, ◌<◌, IfOk};
ghost use Rattle.cds_time.specs.declared.cds.TheConstants.{MOMENT_END};
ghost use Rattle.fcltu_pdu.specs.Transfer.{transfer_of};
ghost use Rattle.fcltu_service.specs.Invocation.{invocation_of, cltu_of};
ghost use Rattle.fcltu_service.specs.Service.{new_service, ask_of, start_answer, stop_answer};
ghost use Rattle.fcltu_service.specs.Service.{transfer_answer, parameter_of, answer_of, after};
ghost use Rattle.fcltu_service.specs.Service.{is_due, after_report};

use crate::answer::{CltuAnswer, CltuParameter};
use crate::invocation::CltuInvocation;
use cds_time::Cds;
use cltu_queue::{Ask, BookReply, Cltu};
use fcltu_numbers::{CltuDeliveryMode, CltuThrowEventDiagnostic};
use fcltu_pdu::CltuTransfer;
use octet_core::{Memory, Octets};
use report_cycle::Schedule;
use sle_numbers::GetParameterDiagnostic;
use std::alloc::Global;
use std::marker::Model;

// The names of the parameters (this product's own).
const DELIVERY_MODE: u16 = 6;

const REPORTING_CYCLE: u16 = 26;

const RETURN_TIMEOUT: u16 = 29;

/// What a forward service keeps from its BIND on. Its queue stands in the station's book.
#[derive(Clone, Copy, Debug)]
pub struct Fcltu {
    timeout: u16,
    reports: Schedule,
}

impl Model for Fcltu {
    ghost use Rattle.fcltu_service.specs.Service.{Service};

    ghost Value = { Service };

    ghost view = { λ s. record { timeout = s.timeout; reports = s.reports } };

    ghost inverse = { λ s. record { timeout = s.timeout; reports = s.reports } };
}

// A CLTU with a copy of its octets.
fn copied(alloc: Global, transfer: &CltuTransfer<'_>) -> Result<Cltu, Memory>
    ensures { IfOk result (λ cltu. cltu ≡ cltu_of (transfer_of transfer.now)) }
{
    Ok(Cltu {
        id: transfer.id,
        earliest: transfer.earliest,
        latest: transfer.latest,
        radiation_delay: transfer.radiation_delay,
        wanted: transfer.wanted,
        octets: Octets::copy_of(alloc, transfer.octets)?,
    })
}

// What a START is answered at a moment, where the book replied so.
fn start_answer(reply: BookReply, now: u128) -> CltuAnswer
    requires { now < MOMENT_END }
    ensures { result ≡ start_answer now reply }
{
    match reply {
        BookReply::Started { .. } => CltuAnswer::Start(Ok((Cds::of_moment(now), None))),
        BookReply::StartRefused { diagnostic } => CltuAnswer::Start(Err(diagnostic)),
        _ => CltuAnswer::Nothing,
    }
}

// What a STOP is answered, where the book replied so.
fn stop_answer(reply: BookReply) -> CltuAnswer
    ensures { result ≡ stop_answer reply }
{
    match reply {
        BookReply::Stopped => CltuAnswer::Stop,
        _ => CltuAnswer::Nothing,
    }
}

// What a TRANSFER-DATA is answered, where the book replied so.
fn transfer_answer(reply: BookReply) -> CltuAnswer
    ensures { result ≡ transfer_answer reply }
{
    match reply {
        BookReply::Taken { room } => CltuAnswer::Transfer {
            room,
            result: Ok(()),
        },
        BookReply::Rejected { diagnostic, room } => CltuAnswer::Transfer {
            room,
            result: Err(diagnostic),
        },
        _ => CltuAnswer::Nothing,
    }
}

impl Fcltu {
    /// An instance that was just bound, with the seconds that its returns may take.
    pub fn new(timeout: u16) -> Fcltu
        ensures { result ≡ new_service timeout }
    {
        Fcltu {
            timeout,
            reports: Schedule::NO_REPORTS,
        }
    }

    /// What an invocation asks the book, with a copy of a CLTU's octets.
    pub fn prepare(&self, alloc: Global, invocation: &CltuInvocation<'_>) -> Result<Ask, Memory>
        ensures { IfOk result (λ ask. ask ≡ ask_of (invocation_of invocation.now)) }
    {
        match invocation {
            CltuInvocation::Start(start) => Ok(Ask::CltuStart { first: start.first }),
            CltuInvocation::Stop => Ok(Ask::CltuStop),
            CltuInvocation::Transfer(transfer) => {
                let cltu = copied(alloc, transfer)?;
                Ok(Ask::CltuTransfer { cltu })
            }
            CltuInvocation::Nothing
            | CltuInvocation::Throw(_)
            | CltuInvocation::Report(_)
            | CltuInvocation::Get(_) => Ok(Ask::Nothing),
        }
    }

    /// What an invocation is answered in a round of this moment, where the book replied so to its
    /// ask. It is nothing where the reply doesn't fit the ask, as no book replies.
    pub fn conclude(
        &mut self,
        invocation: &CltuInvocation<'_>,
        reply: &BookReply,
        now: u128,
    ) -> CltuAnswer
        requires { now < MOMENT_END }
        ensures answer { result
            ≡ answer_of self.old (invocation_of invocation.now) reply.now now }
        ensures after { self.new ≡ after self.old (invocation_of invocation.now) now }
    {
        match invocation {
            CltuInvocation::Nothing => CltuAnswer::Nothing,
            CltuInvocation::Start(_) => start_answer(*reply, now),
            CltuInvocation::Stop => stop_answer(*reply),
            CltuInvocation::Transfer(_) => transfer_answer(*reply),
            CltuInvocation::Throw(throw) => CltuAnswer::Throw {
                number: throw.number,
                result: Err(CltuThrowEventDiagnostic::OperationNotSupported),
            },
            CltuInvocation::Report(kind) => {
                CltuAnswer::Report(self.reports.request(false, *kind, now))
            }
            CltuInvocation::Get(name) => CltuAnswer::Get(self.parameter(*name)),
        }
    }

    // The parameter with this name.
    fn parameter(&self, name: u16) -> Result<CltuParameter, GetParameterDiagnostic>
        ensures { result ≡ parameter_of self.now name }
    {
        match name {
            DELIVERY_MODE => Ok(CltuParameter::DeliveryMode(CltuDeliveryMode::Online)),
            REPORTING_CYCLE => Ok(CltuParameter::ReportingCycle(self.reports.cycle)),
            RETURN_TIMEOUT => Ok(CltuParameter::ReturnTimeout(self.timeout)),
            _ => Err(GetParameterDiagnostic::UnknownParameter),
        }
    }

    /// Whether a status report is due in a round of this moment; it is then given. Its numbers are
    /// the book's view behind the round's ask.
    pub fn report(&mut self, now: u128) -> bool
        requires { now < MOMENT_END }
        ensures due { result ≡ is_due self.old now }
        ensures after { self.new ≡ after_report self.old now }
    {
        let due = self.reports.is_due(now);
        if due {
            self.reports.give(now);
        }
        due
    }
}
