// What the service answers.

use cds_time::Cds;
use cltu_queue::Room;
use fcltu_numbers::{
    CltuDeliveryMode, CltuStartDiagnostic, CltuThrowEventDiagnostic, CltuTransferDataDiagnostic,
};
use sle_numbers::{GetParameterDiagnostic, ScheduleDiagnostic};

/// What a forward service answers in a round, without who sends and the number of the invocation.
#[derive(Clone, Copy, Debug, PartialEq, Eq)]
pub enum CltuAnswer {
    /// No invocation stands to be answered.
    Nothing,
    /// Of a START: the times between which radiation may start, or why there is none.
    Start(Result<(Cds, Option<Cds>), CltuStartDiagnostic>),
    /// Of a STOP, which is done.
    Stop,
    /// Of a TRANSFER-DATA.
    Transfer {
        /// The queue's room behind it.
        room: Room,
        /// That the CLTU is queued, or why not.
        result: Result<(), CltuTransferDataDiagnostic>,
    },
    /// Of a THROW-EVENT.
    Throw {
        /// The number of the event's invocation.
        number: u32,
        /// That the event was taken, or why not.
        result: Result<(), CltuThrowEventDiagnostic>,
    },
    /// Of a SCHEDULE-STATUS-REPORT: that the reports are scheduled, or why not.
    Report(Result<(), ScheduleDiagnostic>),
    /// Of a GET-PARAMETER: the parameter with its value, or why there is none.
    Get(Result<CltuParameter, GetParameterDiagnostic>),
}

/// A parameter of a forward service with its value (this product's own).
#[derive(Clone, Copy, Debug, PartialEq, Eq)]
pub enum CltuParameter {
    /// The name 6.
    DeliveryMode(CltuDeliveryMode),
    /// Seconds from report to report, or none while no cycle runs: the name 26.
    ReportingCycle(Option<u16>),
    /// Seconds that a return may take: the name 29.
    ReturnTimeout(u16),
}
