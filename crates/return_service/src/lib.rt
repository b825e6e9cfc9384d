// A bound instance of a return service: RAF (CCSDS 911.1-B) or RCF (CCSDS 911.2-B).
//
// A session asks `ReturnService::prepare` what to want of a round's look, and has the round's
// invocation answered by `conclude`, with what the look gave and the channels that the site permits.
// In each round it asks for the report that is due, has the delivery make its step, offers what is
// held, and settles the link's answer. What a service has of its own is what a START asks for, the
// parameter that tells it (`kept.rt`), and whether it may be asked for (`permission.rt`).
//
// No call takes memory. `settle` costs the items that were offered; each other call costs what the
// delivery's does, or a constant time.
#![tactic(auto)]

mod answers;
mod counts;
mod invocation;
mod kept;
mod parameter_names;
mod permission;
mod service;
mod span;

pub use counts::Counts;
pub use invocation::{ReturnInvocation, ReturnStart};
pub use octet_core::Offer;
pub use service::ReturnService;
pub use span::Span;
