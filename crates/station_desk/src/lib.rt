// The desk: an offline instance of RAF (CCSDS 911.1-B) with a small buffer, whose link takes
// everything. What a START of it hands over, and the messages of that.
//
// `Buffers` goes over the buffers of a START. It is a `Delivery` of `return_core` over whatever
// gives looks at entries: each round a look, and a buffer that is offered and taken whole, until a
// round hands nothing over. No more than one buffer and its message are held.
//
// A buffer costs one look, and its message one copy of its frames.
#![tactic(auto)]

mod buffers;
pub mod laws;
mod limits;
mod looks;
mod message;

pub use buffers::Buffers;
pub use limits::BUFFER_ITEMS;
pub use looks::Looks;
pub use octet_core::Memory;
