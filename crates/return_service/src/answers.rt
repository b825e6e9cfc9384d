// What invocations are answered.
ghost use Rattle.std.specs.Prelude.{◌≡◌};
ghost use Rattle.sle_common.specs.Diagnostic.{diagnostic};
ghost use Rattle.sle_common.specs.Answer.{confirmation};
ghost use Rattle.return_pdu.specs.Getting.{parameter_answer};
ghost use Rattle.return_service.specs.Answer as answer;
ghost use Rattle.return_service.specs.Answer.{ParameterFits};

use sle_common::{Diagnostic, Parameter};
use sle_numbers::{GetParameterDiagnostic, Numbered};

// A reason of the operation's own.
#[tactic(auto, using(crate::specs::Fits::number_fits))]
fn specific<D: Numbered>(why: D) -> Diagnostic
    ensures exact { result ≡ answer.specific D.number_of why }
    ensures fits { diagnostic.Fits result }
{
    Diagnostic::Specific(i128::from(why.number()))
}

/// That an operation is done, or why not: a reason of its own.
pub(crate) fn confirmed<D: Numbered>(outcome: Result<(), D>) -> Result<(), Diagnostic>
    ensures exact { result ≡ answer.confirmed D.number_of outcome }
    ensures fits { confirmation.Fits result }
{
    match outcome {
        Ok(()) => Ok(()),
        Err(why) => Err(specific(why)),
    }
}

/// A parameter, or that the service has none of this name.
pub(crate) fn known(parameter: Option<Parameter>) -> Result<Parameter, Diagnostic>
    requires { ParameterFits parameter }
    ensures exact { result ≡ answer.known parameter }
    ensures fits { parameter_answer.Fits result }
{
    match parameter {
        Some(parameter) => Ok(parameter),
        None => Err(specific(GetParameterDiagnostic::UnknownParameter)),
    }
}
