// What holds of the definitions, as contracts of functions that do nothing: a caller has a law by a
// call.

ghost use Rattle.ber_shape.specs.Exact.{IsExact};
ghost use Rattle.return_pdu.specs.Items.{BufferIsHeadAndItems};
ghost use Rattle.return_pdu.specs.Plain.{FramesArePlain, EndIsPlain, FramesAreShort};
ghost use Rattle.return_pdu.specs.TransferItem.{BufferIsHeadAndEncoded, BuffersAreExact};
ghost use Rattle.return_pdu.specs.Starting.{raf_start, rcf_start, start_return};
ghost use Rattle.return_pdu.specs.Stopping.{stop, stop_return};
ghost use Rattle.return_pdu.specs.Scheduling.{schedule, schedule_return};
ghost use Rattle.return_pdu.specs.Getting.{get_parameter, parameter_return};
ghost use Rattle.return_pdu.specs.Reporting.{raf_report, rcf_report};

use crate::get_parameter::GetParameter;
use crate::parameter_return::ParameterReturn;
use crate::raf_report::RafReport;
use crate::raf_start::RafStart;
use crate::rcf_report::RcfReport;
use crate::rcf_start::RcfStart;
use crate::schedule::Schedule;
use crate::schedule_return::ScheduleReturn;
use crate::start_return::StartReturn;
use crate::stop::Stop;
use crate::stop_return::StopReturn;
use ber_shape::laws::pdu_is_exact;

/// A transfer buffer's canonical spelling is its head and then the items' canonical spellings, one
/// after another.
pub fn buffer_is_head_and_items()
    ensures { BufferIsHeadAndItems }
{}

/// A buffer whose items fit is spelled as its head and then the items, each as it is encoded.
#[tactic(auto, using(crate::proofs::Fitting::buffer_spelled))]
pub fn buffer_is_head_and_encoded()
    ensures { BufferIsHeadAndEncoded }
{}

/// Octets are read as a buffer exactly where they spell it and its items fit, and spell one at
/// most.
#[tactic(auto, using(crate::proofs::Fitting::buffers_exact))]
pub fn buffers_are_exact()
    ensures { BuffersAreExact }
{}

/// A frame whose fields are in their ranges fits as a plain item, whose tree has these fields.
#[tactic(auto, using(crate::proofs::Plain::frames_are_plain))]
pub fn frames_are_plain()
    ensures { FramesArePlain }
{}

/// So does the end of data.
#[tactic(auto, using(crate::proofs::Plain::end_is_plain))]
pub fn end_is_plain()
    ensures { EndIsPlain }
{}

/// A frame's canonical spelling has at most 300 octets more than the frame.
pub fn frames_are_short()
    ensures { FramesAreShort }
{}

/// Each PDU is read exactly where a tree of a value that fits is spelled, and as that value; the
/// canonical spelling of a value is read back as it; octets spell one value at most.
pub fn pdus_are_exact()
    ensures raf_start { IsExact raf_start }
    ensures rcf_start { IsExact rcf_start }
    ensures start_return { IsExact start_return }
    ensures stop { IsExact stop }
    ensures stop_return { IsExact stop_return }
    ensures schedule { IsExact schedule }
    ensures schedule_return { IsExact schedule_return }
    ensures get_parameter { IsExact get_parameter }
    ensures parameter_return { IsExact parameter_return }
    ensures raf_report { IsExact raf_report }
    ensures rcf_report { IsExact rcf_report }
{
    pdu_is_exact::<RafStart>();
    pdu_is_exact::<RcfStart>();
    pdu_is_exact::<StartReturn>();
    pdu_is_exact::<Stop>();
    pdu_is_exact::<StopReturn>();
    pdu_is_exact::<Schedule>();
    pdu_is_exact::<ScheduleReturn>();
    pdu_is_exact::<GetParameter>();
    pdu_is_exact::<ParameterReturn>();
    pdu_is_exact::<RafReport>();
    pdu_is_exact::<RcfReport>();
}
