// The message of a transfer buffer: what a return service (CCSDS 911.1-B, CCSDS 911.2-B) offers as
// one piece, with credentials in each item where its user asks for them.
//
// A `BufferMessage` is made in the round in which the buffer is fixed: the numbers of its
// credentials are drawn there. It holds no octets of its own, but knows their number: `length` is
// what to reserve once, `put` appends it to a `Writer` that has room, and `written` does both.
// `fits` is the test of what its makers require. The module `laws` has what is proved of all
// buffers.
//
// Making one goes over the items' fields, and putting it copies each frame once and takes a digest
// an item where it is signed. Only `written` takes memory.
#![tactic(auto)]

mod credentials;
mod fitting;
mod item;
pub mod laws;
mod limits;
mod message;
mod numbers;
mod signature;
mod signer;

pub use limits::MOST_ITEMS;
pub use message::BufferMessage;
pub use octet_core::Memory;
pub use signer::Signer;
