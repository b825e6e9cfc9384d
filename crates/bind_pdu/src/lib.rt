// The PDUs of association, which all services share (CCSDS 911.1-B, annex A): BIND, UNBIND, their
// returns and PEER-ABORT, each by its shape.
//
// No call takes memory. Decoding costs one pass over the octets and lends names, credentials and
// the instance identifier from them. Encoding copies each octet once, after the lengths of the
// elements around it were added up.
#![tactic(auto)]

mod authority_identifier;
mod bind;
mod bind_return;
pub mod laws;
mod peer_abort;
mod unbind;
mod unbind_return;

pub use bind::Bind;
pub use bind_return::BindReturn;
pub use peer_abort::PeerAbort;
pub use unbind::Unbind;
pub use unbind_return::UnbindReturn;
