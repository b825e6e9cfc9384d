// What holds of the definitions, as contracts of functions that do nothing: a caller has a law by a
// call.

ghost use Rattle.ber_shape.specs.Exact.{IsExact};
ghost use Rattle.fcltu_pdu.specs.Start.{start_pdu, start_return_pdu};
ghost use Rattle.fcltu_pdu.specs.Throw.{throw_pdu, throw_return_pdu};
ghost use Rattle.fcltu_pdu.specs.Transfer.{transfer_pdu, transfer_return_pdu};
ghost use Rattle.fcltu_pdu.specs.Async.{notice_pdu};
ghost use Rattle.fcltu_pdu.specs.Report.{report_pdu};

use crate::async_::Async;
use crate::cltu_report::CltuReport;
use crate::cltu_start::CltuStart;
use crate::cltu_start_return::CltuStartReturn;
use crate::cltu_transfer::CltuTransfer;
use crate::throw::Throw;
use crate::throw_return::ThrowReturn;
use crate::transfer_return::TransferReturn;
use ber_shape::laws::pdu_is_exact;

/// Each PDU is read exactly where a tree of a value that fits is spelled, and as that value; the
/// canonical spelling of a value is read back as it; octets spell one value at most.
pub fn pdus_are_exact()
    ensures start { IsExact start_pdu }
    ensures start_return { IsExact start_return_pdu }
    ensures throw { IsExact throw_pdu }
    ensures throw_return { IsExact throw_return_pdu }
    ensures transfer { IsExact transfer_pdu }
    ensures transfer_return { IsExact transfer_return_pdu }
    ensures notice { IsExact notice_pdu }
    ensures report { IsExact report_pdu }
{
    pdu_is_exact::<CltuStart>();
    pdu_is_exact::<CltuStartReturn>();
    pdu_is_exact::<Throw>();
    pdu_is_exact::<ThrowReturn>();
    pdu_is_exact::<CltuTransfer>();
    pdu_is_exact::<TransferReturn>();
    pdu_is_exact::<Async>();
    pdu_is_exact::<CltuReport>();
}
