// Return all frames (CCSDS 911.1-B): what a bound instance answers, reports and hands over.
//
// A session asks `Raf::prepare` what to want of a round's look, and has the round's invocation
// answered by `Raf::conclude`, with what the look gave. In each round it asks for the report that is
// due, has the delivery make its step, offers what is held, and settles the link's answer.
//
// No call takes memory: `Delivery::new` alone does.
#![tactic(auto)]

mod invocation;
mod raf;

pub use invocation::RafInvocation;
pub use octet_core::Offer;
pub use raf::Raf;
