// The PDUs of the forward CLTU service (CCSDS 912.1-B, annex A): START, THROW-EVENT and
// TRANSFER-DATA with their returns, ASYNC-NOTIFY and the status report, each decoded, measured and
// encoded by its shape.
//
// No call takes memory. Reading costs one pass over the octets and lends from them; writing copies
// each octet once, after the lengths of the elements around it were added up.
#![tactic(auto)]

mod async_;
mod cltu_report;
mod cltu_start;
mod cltu_start_return;
mod cltu_transfer;
mod last_ok;
mod last_processed;
pub mod laws;
mod notice_kind;
mod start_answer;
mod throw;
mod throw_return;
mod transfer_return;
mod unsigned_long;

pub use async_::Async;
pub use cltu_report::CltuReport;
pub use cltu_start::CltuStart;
pub use cltu_start_return::CltuStartReturn;
pub use cltu_transfer::CltuTransfer;
pub use throw::Throw;
pub use throw_return::ThrowReturn;
pub use transfer_return::TransferReturn;
