// Return channel frames (CCSDS 911.2-B): what a bound instance answers, reports and hands over.
//
// A session asks `Rcf::prepare` what to want of a round's look, and has the round's invocation
// answered by `Rcf::conclude`, with what the look gave and the channels that the site permits. In
// each round it asks for the report that is due, has the delivery make its step, offers what is
// held, and settles the link's answer.
//
// No call takes memory: `Delivery::new` alone does.
#![tactic(auto)]

mod invocation;
mod rcf;

pub use invocation::RcfInvocation;
pub use octet_core::Offer;
pub use rcf::Rcf;
