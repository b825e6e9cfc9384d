use sle_common::{Diagnostic, Parameter};

/// What a return service answers in a round, without who sends and the number of the invocation.
#[derive(Clone, Copy, Debug, PartialEq, Eq)]
pub enum ReturnAnswer {
    /// No invocation stands to be answered.
    Nothing,
    /// Of a START: that the delivery starts, or why not.
    Start(Result<(), Diagnostic>),
    /// Of a STOP, which is done.
    Stop,
    /// Of a SCHEDULE-STATUS-REPORT: that the reports are scheduled, or why not.
    Report(Result<(), Diagnostic>),
    /// Of a GET-PARAMETER: the parameter with its value, or why there is none.
    Get(Result<Parameter, Diagnostic>),
}
