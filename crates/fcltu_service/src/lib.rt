// The forward CLTU service of a session (CCSDS 912.1-B): what it asks the station's book where a
// user invokes it, what it answers once the book has replied, and what it tells unasked.
//
// `Fcltu` is what a bound instance keeps: `prepare` gives the ask of an invocation, `conclude` its
// answer, `report` whether a status report is due. `CltuAnswer::returned` makes an answer's PDU,
// `notify` that of a notice and `status_report` that of a report; each of them fits its encoding.
//
// Only `Fcltu::prepare` takes memory: it copies the octets of a CLTU, once. Every other call takes
// constant time, and so does writing a PDU, which never has a CLTU's octets.
#![tactic(auto)]

mod answer;
mod cltu_return;
mod fcltu;
mod invocation;
pub mod laws;
mod telling;

pub use answer::{CltuAnswer, CltuParameter};
pub use cltu_return::CltuReturn;
pub use fcltu::Fcltu;
pub use invocation::CltuInvocation;
pub use telling::{notify, status_report};
