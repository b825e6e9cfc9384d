// Types of elements by their shapes: a shape says how octets are read, which tree a value has and
// which values fit, and comes with the proof that these agree. A codec of a type is its shape and
// three functions that meet it.
//
// No call takes memory. Reading costs one pass over the octets and lends from them; writing copies
// each octet once, after the lengths of the elements around it were added up.
#![tactic(auto)]

mod codec;
mod element;
mod fields;
mod identifier;
mod integer;
pub mod laws;
mod lending;
mod members;
mod octet_string;
mod pdu;
mod sequence;

pub use codec::{decode, encode, length};
pub use element::Element;
pub use fields::Last;
pub use identifier::{Identifier, Octet};
pub use integer::Integer;
pub use lending::{lend_list, lend_some, list_size, split_first, write_list};
pub use members::{
    Members, read_around, read_within, size_around, size_within, write_around, write_within,
};
pub use octet_string::OctetString;
pub use pdu::Pdu;
pub use sequence::Sequence;
