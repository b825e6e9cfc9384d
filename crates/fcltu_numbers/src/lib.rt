// The numbers that the standard of the forward CLTU service gives to diagnostics, statuses and
// notices, with their words (CCSDS 912.1-B, annex A).
#![tactic(auto)]

mod cltu_delivery_mode;
mod cltu_notification_type;
mod cltu_production_status;
mod cltu_start_diagnostic;
mod cltu_status;
mod cltu_throw_event_diagnostic;
mod cltu_transfer_data_diagnostic;
mod uplink_status;

pub use cltu_delivery_mode::CltuDeliveryMode;
pub use cltu_notification_type::CltuNotificationType;
pub use cltu_production_status::CltuProductionStatus;
pub use cltu_start_diagnostic::CltuStartDiagnostic;
pub use cltu_status::CltuStatus;
pub use cltu_throw_event_diagnostic::CltuThrowEventDiagnostic;
pub use cltu_transfer_data_diagnostic::CltuTransferDataDiagnostic;
pub use uplink_status::UplinkStatus;
