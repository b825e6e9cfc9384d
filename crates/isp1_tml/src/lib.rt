// The messages of an ISP1 connection (CCSDS 913.1-B, transport mapping layer): TCP's octets in any
// pieces are made into whole messages, or refused at the first octet that shows a fault.
//
// A `Feeder` holds at most the octets of one longest message and lends each message's body; only
// `Feeder::new` takes memory. `Messages` lends the messages of octets that came whole, and takes
// none. `head` gives the eight octets before a body. A `Beat` keeps the moments that heartbeats and
// the dead timer are judged by. The module `laws` has what is proved of every stream.
#![tactic(auto)]

mod beat;
mod feeder;
pub mod laws;
mod memory;
mod message;
mod messages;
mod octet_queue;
mod tml_fault;

pub use beat::Beat;
pub use feeder::Feeder;
pub use memory::Memory;
pub use message::{CONTEXT_BODY, HEADER, LONGEST_PDU, Message, head};
pub use messages::Messages;
pub use octet_queue::CAPACITY;
pub use tml_fault::TmlFault;
