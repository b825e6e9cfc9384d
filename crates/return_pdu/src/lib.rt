// The PDUs of the return services (CCSDS 911.1-B and 911.2-B, annex A): START of RAF and of RCF,
// STOP, SCHEDULE-STATUS-REPORT, GET-PARAMETER, their returns and the status reports, each decoded,
// measured and encoded by its shape; and transfer buffers of both services.
//
// No call takes memory. Reading costs one pass over the octets and lends from them; writing copies
// each octet once, after the lengths of the elements around it were added up.
//
// A transfer buffer is read by `TransferBuffer`, which checks it whole, and then reads each item
// once more where it stands when it hands it out: its heads and fields, and not a frame's octets.
// It is written by `buffer_head` and the items behind it. Each call appends to a `Writer` whose
// room the caller has seen to.
#![tactic(auto)]

mod continuity;
mod frame_fields;
mod frame_octets;
mod get_parameter;
mod item;
pub mod laws;
mod lock_loss;
mod notification;
mod number_range;
mod parameter_return;
mod raf_frame_fields;
mod raf_item;
mod raf_report;
mod raf_start;
mod rcf_frame_fields;
mod rcf_item;
mod rcf_report;
mod rcf_start;
mod return_answer;
mod return_kind;
mod return_numbers;
mod schedule;
mod schedule_return;
mod start_return;
mod stop;
mod stop_return;
mod told_fields;
mod transfer_buffer;
mod transfer_item;

pub use get_parameter::GetParameter;
pub use notification::Notification;
pub use parameter_return::ParameterReturn;
pub use raf_report::RafReport;
pub use raf_start::RafStart;
pub use rcf_report::RcfReport;
pub use rcf_start::RcfStart;
pub use return_answer::ReturnAnswer;
pub use return_kind::ReturnKind;
pub use return_numbers::ReturnNumbers;
pub use schedule::Schedule;
pub use schedule_return::ScheduleReturn;
pub use start_return::StartReturn;
pub use stop::Stop;
pub use stop_return::StopReturn;
pub use transfer_buffer::{TransferBuffer, buffer_head, buffer_length};
pub use transfer_item::TransferItem;
