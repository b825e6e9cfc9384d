use cds_time::Cds;
use frame_select::Filter;
use sle_common::ReportKind;

/// What a START asks for.
#[derive(Clone, Copy, Debug, PartialEq, Eq)]
pub struct ReturnStart {
    /// The start time, where it is known.
    pub start: Option<Cds>,
    /// The stop time, where it is known.
    pub stop: Option<Cds>,
    /// The quality of the frames (RAF), or their channel (RCF).
    pub filter: Filter,
}

/// What a user asks of an instance in a round, where it passed the association's table and its
/// credentials hold.
#[derive(Clone, Copy, Debug, PartialEq, Eq)]
pub enum ReturnInvocation {
    /// No invocation stands to be answered.
    Nothing,
    /// START.
    Start(ReturnStart),
    /// STOP.
    Stop,
    /// SCHEDULE-STATUS-REPORT.
    Report(ReportKind),
    /// GET-PARAMETER of a name.
    Get(u16),
}
