// What a session makes of a bound service (CCSDS 911.1-B, 911.2-B and 912.1-B): what its user says
// to it, what it keeps, asks, answers and reports, and the message that it has to offer.
//
// `Invocation` is what a user's PDU says to a service. `ServiceState` is what a bound service keeps:
// each call that a session makes of one is exact by a function of `specs/Served.antt`, with an arm
// for each service. The returns and reports are put into a `Block`, and the message of a buffer into
// an `Outgoing`, each with this provider's `Signature` where the peer asks for one.
//
// A `Block` and an `Outgoing` take their memory when they are made. An invocation is decoded in one
// pass and lends its octets; of FCLTU, those of a CLTU are copied once. A message of a buffer costs
// its octets, and a digest an item where it is signed.
#![tactic(auto)]

mod block;
mod fcltu_served;
mod inquiry;
pub mod laws;
mod outgoing;
mod replied;
mod return_returns;
mod return_served;
mod return_start;
mod service;
mod service_message;
mod service_state;
mod signature;

pub use block::Block;
pub use fcltu_served::{
    add_fcltu_notice, add_fcltu_report, fcltu_asked, fcltu_outcome, fcltu_view_due,
    put_fcltu_answer,
};
pub use inquiry::Inquiry;
pub use outgoing::Outgoing;
pub use replied::Replied;
pub use return_returns::{put_return_answer, return_outcome};
pub use return_served::{add_return_report, channels_of, return_asked};
pub use return_start::StartRead;
pub use service::Invocation;
pub use service_message::put_message;
pub use service_state::ServiceState;
pub use signature::{Signature, signed_with};
