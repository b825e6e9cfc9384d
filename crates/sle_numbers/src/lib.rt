// The numbers that the standards give to services, modes, diagnostics, reasons and statuses, with
// their words, and the trait of all such tables. Here stand the tables that all services share, and
// those of the return services (CCSDS 911.1-B and 911.2-B, annex A). A value that a peer may send
// beside its table stays a number where it is read.
#![tactic(auto)]

mod bind_diagnostic;
mod common_diagnostic;
mod frame_quality;
mod get_parameter_diagnostic;
mod lock_status;
mod numbered;
mod peer_abort_diagnostic;
mod requested_frame_quality;
mod return_delivery_mode;
mod return_production_status;
mod return_start_diagnostic;
mod schedule_diagnostic;
mod service_type;
mod unbind_reason;

pub use bind_diagnostic::BindDiagnostic;
pub use common_diagnostic::CommonDiagnostic;
pub use frame_quality::FrameQuality;
pub use get_parameter_diagnostic::GetParameterDiagnostic;
pub use lock_status::LockStatus;
pub use numbered::Numbered;
pub use peer_abort_diagnostic::PeerAbortDiagnostic;
pub use requested_frame_quality::RequestedFrameQuality;
pub use return_delivery_mode::ReturnDeliveryMode;
pub use return_production_status::ReturnProductionStatus;
pub use return_start_diagnostic::ReturnStartDiagnostic;
pub use schedule_diagnostic::ScheduleDiagnostic;
pub use service_type::ServiceType;
pub use unbind_reason::UnbindReason;
