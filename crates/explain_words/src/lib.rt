// Messages of the transport in words that a person reads: the name of each PDU, and its fields by
// their names in the standard (CCSDS 911.1-B, 911.2-B, 912.1-B and 913.1-B), with the words of the
// standard's tables in place of numbers, and with times as ISO 8601 has them.
//
// `put_messages` appends what octets say to a `Text`, which also takes single fields. What is read
// is what the crates of PDUs read; nothing is promised of the words.
#![tactic(auto)]

mod association;
mod delivery;
mod forward;
mod in_words;
mod message;
mod name;
mod operations;
mod text;
mod time;
mod values;

pub use delivery::{put_continuity, put_locks, put_loss, put_notice};
pub use forward::{put_counts, put_room, put_statuses};
pub use message::put_messages;
pub use name::{put_name, put_why};
pub use operations::put_parameter_name;
pub use text::Text;
pub use time::{put_time, put_when};
pub use values::{DIAGNOSTIC, put_named};
