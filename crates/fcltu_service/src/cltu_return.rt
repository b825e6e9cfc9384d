// The returns of the service (CCSDS 912.1-B, annex A).
ghost use Rattle.std.specs.Prelude.{◌≡◌, length, option_map, IfSome};
ghost use Rattle.ber_core.specs.Written.{HasRoom, Appends};
ghost use Rattle.sle_common.specs.Answer.{confirmation as confirmation_element};
ghost use Rattle.sle_common.specs.Credentials.{credentials as credentials_element, credentials_of};
ghost use Rattle.sle_common.specs.Diagnostic.{diagnostic};
ghost use Rattle.sle_common.specs.Parameter.{parameter as parameter_element};
ghost use Rattle.return_pdu.specs.Getting.{parameter_answer as parameter_answer_element};
ghost use Rattle.fcltu_numbers.specs.CltuStartDiagnostic.{number_of as start_number_of};
ghost use Rattle.fcltu_pdu.specs.Answer.{start_answer as start_answer_element};
ghost use Rattle.fcltu_service.specs.Returns.{return_of, ReturnFits, return_octets, refused};
ghost use Rattle.fcltu_service.specs.Returns.{with_diagnostic, with_parameter, parameter_told};
ghost use Rattle.fcltu_service.specs.Returns.{returned};

use crate::answer::{CltuAnswer, CltuParameter};
use ber_core::Writer;
use ber_shape::Pdu;
use cds_time::Cds;
use fcltu_numbers::CltuStartDiagnostic;
use fcltu_pdu::{CltuStartReturn, ThrowReturn, TransferReturn};
use return_pdu::{ParameterReturn, ScheduleReturn, StopReturn};
use sle_common::{Credentials, Diagnostic, Parameter};
use sle_numbers::{GetParameterDiagnostic, Numbered};

/// A return of the service.
#[derive(Clone, Copy, Debug, PartialEq, Eq)]
pub enum CltuReturn<'a> {
    Start(CltuStartReturn<'a>),
    Stop(StopReturn<'a>),
    Transfer(TransferReturn<'a>),
    Throw(ThrowReturn<'a>),
    Report(ScheduleReturn<'a>),
    Get(ParameterReturn<'a>),
}

impl<'a> CltuReturn<'a> {
    /// The number of octets that `encode` appends.
    pub fn length(&self) -> usize
        requires { ReturnFits (return_of self.now) }
        ensures { result ≡ length (return_octets (return_of self.now)) }
    {
        match self {
            CltuReturn::Start(pdu) => pdu.length(),
            CltuReturn::Stop(pdu) => pdu.length(),
            CltuReturn::Transfer(pdu) => pdu.length(),
            CltuReturn::Throw(pdu) => pdu.length(),
            CltuReturn::Report(pdu) => pdu.length(),
            CltuReturn::Get(pdu) => pdu.length(),
        }
    }

    /// Appends the canonical spelling.
    pub fn encode(&self, writer: &mut Writer)
        requires fits { ReturnFits (return_of self.now) }
        requires room { HasRoom writer.old (return_octets (return_of self.now)) }
        ensures { Appends writer.old writer.new (return_octets (return_of self.now)) }
    {
        match self {
            CltuReturn::Start(pdu) => pdu.encode(writer),
            CltuReturn::Stop(pdu) => pdu.encode(writer),
            CltuReturn::Transfer(pdu) => pdu.encode(writer),
            CltuReturn::Throw(pdu) => pdu.encode(writer),
            CltuReturn::Report(pdu) => pdu.encode(writer),
            CltuReturn::Get(pdu) => pdu.encode(writer),
        }
    }
}

// A reason of an operation's own, as a return has it.
#[tactic(auto, using(crate::proofs::Fits::small_fits))]
fn refused<D: Numbered>(why: D) -> Diagnostic
    ensures exact { result ≡ refused D.number_of why }
    ensures fits { diagnostic.Fits result }
{
    Diagnostic::Specific(i128::from(why.number()))
}

// That an operation was done, or why not.
fn confirmation<D: Numbered>(outcome: Result<(), D>) -> Result<(), Diagnostic>
    ensures exact { result ≡ with_diagnostic D.number_of outcome }
    ensures fits { confirmation_element.Fits result }
{
    match outcome {
        Ok(()) => Ok(()),
        Err(why) => Err(refused(why)),
    }
}

// The times of radiation, or why there are none.
#[tactic(auto, using(crate::proofs::Fits::time_fits, crate::proofs::Fits::conditional_fits))]
fn start_result(
    outcome: Result<(Cds, Option<Cds>), CltuStartDiagnostic>,
) -> Result<(Cds, Option<Cds>), Diagnostic>
    ensures exact { result ≡ with_diagnostic start_number_of outcome }
    ensures fits { start_answer_element.Fits result }
{
    match outcome {
        Ok(times) => Ok(times),
        Err(why) => Err(refused(why)),
    }
}

// A parameter as a return has it.
#[tactic(auto, using(crate::proofs::Fits::small_fits))]
fn parameter_told(parameter: CltuParameter) -> Parameter
    ensures exact { result ≡ parameter_told parameter }
    ensures fits { parameter_element.Fits result }
{
    match parameter {
        CltuParameter::DeliveryMode(mode) => Parameter::Mode(i128::from(mode.number())),
        CltuParameter::ReportingCycle(None) => Parameter::Cycle(None),
        CltuParameter::ReportingCycle(Some(seconds)) => {
            Parameter::Cycle(Some(i128::from(seconds)))
        }
        CltuParameter::ReturnTimeout(seconds) => Parameter::Timeout(i128::from(seconds)),
    }
}

// The parameter, or why there is none.
fn parameter_result(
    outcome: Result<CltuParameter, GetParameterDiagnostic>,
) -> Result<Parameter, Diagnostic>
    ensures exact { result ≡ with_parameter outcome }
    ensures fits { parameter_answer_element.Fits result }
{
    match outcome {
        Ok(parameter) => Ok(parameter_told(parameter)),
        Err(why) => Err(refused(why)),
    }
}

impl CltuAnswer {
    /// The return of an invocation with this number that is answered so, with these credentials;
    /// none where nothing stands to be answered.
    #[tactic(auto, using(crate::proofs::Fits::small_fits))]
    pub fn returned<'a>(self, credentials: Credentials<'a>, invoke: u16) -> Option<CltuReturn<'a>>
        requires { credentials_element.Fits (credentials_of credentials) }
        ensures seen { option_map return_of result
            ≡ returned self (credentials_of credentials.entry) invoke }
        ensures fits { IfSome result (λ pdu. ReturnFits (return_of pdu)) }
    {
        match self {
            CltuAnswer::Nothing => None,
            CltuAnswer::Start(outcome) => Some(CltuReturn::Start(CltuStartReturn {
                credentials,
                invoke,
                result: start_result(outcome),
            })),
            CltuAnswer::Stop => Some(CltuReturn::Stop(StopReturn {
                credentials,
                invoke,
                result: Ok(()),
            })),
            CltuAnswer::Transfer { room, result } => Some(CltuReturn::Transfer(TransferReturn {
                credentials,
                invoke,
                next: room.next,
                free: i128::from(room.free),
                result: confirmation(result),
            })),
            CltuAnswer::Throw { number, result } => Some(CltuReturn::Throw(ThrowReturn {
                credentials,
                invoke,
                number,
                result: confirmation(result),
            })),
            CltuAnswer::Report(outcome) => Some(CltuReturn::Report(ScheduleReturn {
                credentials,
                invoke,
                result: confirmation(outcome),
            })),
            CltuAnswer::Get(outcome) => Some(CltuReturn::Get(ParameterReturn {
                credentials,
                invoke,
                result: parameter_result(outcome),
            })),
        }
    }
}
