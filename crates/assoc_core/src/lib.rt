// The association of a user with this provider (CCSDS 911.1-B, 911.2-B and 912.1-B): who may send
// what, in which state.
//
// `Association` has the state. `invoke` says what becomes of a message: it is handled, or it is a
// BIND that is denied, or the association is aborted. `moved` tells it what a message that was
// handled led to. Both go by the table of state and message (`specs/Table.antt`): what decodes is
// asked before the state, the state before the credentials, and the credentials before the service.
// `check_bind` has the checks of a BIND that passed, `peer_of` the place of a peer by its name, and
// `OuterTag` what is told before anything is decoded. The module `laws` has what is proved of every
// list of messages.
//
// Nothing here takes memory. A message costs constant time, but that a BIND goes over the site's
// peers, and `check_bind` over its instances; credentials that are asked for cost one digest.
#![tactic(auto)]

mod access;
mod association;
mod bind_check;
pub mod laws;
mod outcome;
mod outer_tag;
mod pdu_kind;
mod state;
mod step;

pub use access::{is_asked, peer_of};
pub use association::Association;
pub use bind_check::check_bind;
pub use outcome::Outcome;
pub use outer_tag::OuterTag;
pub use pdu_kind::PduKind;
pub use state::{Binding, State};
pub use step::Step;
