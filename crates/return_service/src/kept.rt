// What the last START asked for, as a parameter.
ghost use Rattle.std.specs.Prelude.{◌≡◌};
ghost use Rattle.sle_common.specs.Parameter.{parameter};
ghost use Rattle.return_service.specs.Requested as requested;
ghost use Rattle.return_service.specs.Requested.{KeptFits};

use crate::parameter_names::{REQUESTED_CHANNEL, REQUESTED_QUALITY};
use frame_select::Filter;
use return_pdu::ReturnKind;
use sle_common::{Gvcid, Parameter};
use sle_numbers::{Numbered, RequestedFrameQuality};

// The name of the parameter.
pub(crate) fn kept_name(kind: ReturnKind) -> u16
    ensures { result ≡ requested.kept_name kind }
{
    match kind {
        ReturnKind::Raf => REQUESTED_QUALITY,
        ReturnKind::Rcf => REQUESTED_CHANNEL,
    }
}

fn kept_quality(kept: Option<Filter>) -> RequestedFrameQuality
    ensures { result ≡ requested.kept_quality kept }
{
    match kept {
        Some(Filter::Quality(quality)) => quality,
        _ => RequestedFrameQuality::AllFrames,
    }
}

fn kept_channel(kept: Option<Filter>) -> Option<Gvcid>
    ensures { result ≡ requested.kept_channel kept }
{
    match kept {
        Some(Filter::Channel(channel)) => Some(channel),
        _ => None,
    }
}

// The parameter.
#[tactic(auto, using(crate::specs::Fits::number_fits))]
pub(crate) fn kept_parameter(kind: ReturnKind, kept: Option<Filter>) -> Parameter
    requires { KeptFits kept }
    ensures exact { result ≡ requested.kept_parameter kind kept }
    ensures fits { parameter.Fits result }
{
    match kind {
        ReturnKind::Raf => Parameter::Quality(i128::from(kept_quality(kept).number())),
        ReturnKind::Rcf => Parameter::Channel(kept_channel(kept)),
    }
}
