// The types that the PDUs of all services share (CCSDS 911.1-B, annex A), each with its shape, and
// service instance identifiers with their texts.
//
// A type of one element is an `Element` of `ber_shape`, what stands in one a `Members`: PDUs are
// put together of these. A type that only names an element, as `ConditionalTime`, has a plain type
// of values. Reading lends from the octets and takes no memory, nor does writing. `parse_text`
// alone takes memory: a list, and each value.
#![tactic(auto)]

mod annotation;
mod antenna_id;
mod attribute;
mod confirmation;
mod credentials;
mod diagnostic;
mod gvcid;
mod id_fault;
mod in_table;
mod instance_id;
mod instance_ref;
mod instance_text;
pub mod laws;
mod number;
mod parameter;
mod part_ref;
mod report_kind;
mod time;

pub use annotation::Annotation;
pub use antenna_id::AntennaId;
pub use attribute::Attribute;
pub use confirmation::Confirmation;
pub use credentials::Credentials;
pub use diagnostic::Diagnostic;
pub use gvcid::{Channel, Gvcid};
pub use id_fault::IdFault;
pub use in_table::InTable;
pub use instance_id::{InstanceId, InstancePart, LONGEST_VALUE, MOST_PARTS};
pub use instance_ref::InstanceRef;
pub use number::{InvokeId, Number};
pub use parameter::Parameter;
pub use part_ref::PartRef;
pub use report_kind::ReportKind;
pub use time::{ConditionalTime, Time};
