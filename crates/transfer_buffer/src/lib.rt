// The transfer buffer of a return service (CCSDS 911.1-B, RAF-TRANSFER-BUFFER): the items that are
// held for the next message, and whether it is due.
//
// `Buffer` holds items of any type, and knows of each only what it is told: its octets of frames,
// and whether it is a notification or closes the buffer. Contracts see it as a record of the held
// items and these numbers, and judge it by the numbers of `archive_terms`.
//
// Only `Buffer::new` takes memory: it reserves room for the greatest number of items. Each other
// call takes constant time, but for those that empty the buffer, which drop its items.
#![tactic(auto)]

mod buffer;
mod memory;

pub use buffer::Buffer;
pub use memory::Memory;
