// The basic encoding rules (X.690), as far as the PDUs of this product need them.
//
// A `Writer` appends elements in their canonical spelling: each length in the shortest definite
// form, each INTEGER in the fewest octets. It takes its memory when it is made; each call costs one
// pass over the octets that it appends. A `BlockWriter` does the same in a block that it holds
// itself, and takes no memory.
//
// A `Reader` accepts exactly the elements that stand in its octets, at most 16 inside one another,
// with any definite length of at most 8 octets behind its first one, and with content that keeps
// the rules of its type. Of everything else it names the first fault, with its place. It lends the
// octets that it reads and takes no memory. A call costs at most one pass over the element that it
// reads; entering and leaving cost the same whatever stands inside.
#![tactic(auto)]

mod block_writer;
mod content;
mod fault;
pub mod laws;
mod memory;
mod reader;
mod size;
mod writer;

pub use block_writer::BlockWriter;
pub use fault::BerFault;
pub use memory::Memory;
pub use reader::Reader;
pub use size::{element_length, integer_length};
pub use writer::Writer;
