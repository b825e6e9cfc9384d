// The queue of telecommands (CLTUs) of a forward service instance (CCSDS 912.1-B): what a START, a
// TRANSFER-DATA and a STOP answer, which CLTU radiates when, and what the user is told of it.
//
// `Queue` does exactly what the definition `forward` says, call by call. The laws in `laws` say of
// every list of events that the CLTUs of a START radiate at most once, in order and within their
// windows.
//
// Only `Queue::new` and `Queue::transfer` take memory. A CLTU's octets are shared with the
// caller's, and handed on by `take`, without a copy. Each call takes constant time, but for those
// that discard all that waits.
#![tactic(auto)]

mod ask;
mod book_reply;
mod cltu;
mod cltu_fault;
mod in_air;
mod last_ok;
pub mod laws;
mod notice;
mod processed;
mod queue;
mod room;
mod taken;
mod times;
mod uplink_view;

pub use ask::Ask;
pub use book_reply::BookReply;
pub use cltu::Cltu;
pub use cltu_fault::CltuFault;
pub use last_ok::LastOk;
pub use notice::Notice;
pub use processed::Processed;
pub use queue::Queue;
pub use room::Room;
pub use taken::Taken;
pub use uplink_view::UplinkView;
