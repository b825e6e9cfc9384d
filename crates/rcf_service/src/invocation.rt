use return_pdu::RcfStart;
use sle_common::ReportKind;

/// What a user asks of an instance in a round, where it passed the association's table and its
/// credentials hold.
#[derive(Clone, Copy, Debug, PartialEq, Eq)]
pub enum RcfInvocation<'a> {
    /// No invocation stands to be answered.
    Nothing,
    /// START.
    Start(RcfStart<'a>),
    /// STOP.
    Stop,
    /// SCHEDULE-STATUS-REPORT.
    Report(ReportKind),
    /// GET-PARAMETER of a name.
    Get(u16),
}
