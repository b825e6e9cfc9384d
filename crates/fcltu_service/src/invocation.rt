// What a user invokes.

use fcltu_pdu::{CltuStart, CltuTransfer, Throw};
use sle_common::ReportKind;

/// What a bound user invokes, once it passed the association.
#[derive(Clone, Copy, Debug, PartialEq, Eq)]
pub enum CltuInvocation<'a> {
    /// Nothing, in a round without an invocation.
    Nothing,
    /// CLTU-START.
    Start(CltuStart<'a>),
    /// CLTU-STOP.
    Stop,
    /// CLTU-TRANSFER-DATA.
    Transfer(CltuTransfer<'a>),
    /// CLTU-THROW-EVENT.
    Throw(Throw<'a>),
    /// CLTU-SCHEDULE-STATUS-REPORT.
    Report(ReportKind),
    /// CLTU-GET-PARAMETER, of the parameter with this name.
    Get(u16),
}
