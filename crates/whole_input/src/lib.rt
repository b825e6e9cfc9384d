// A whole input, read from a source in pieces, up to a length that it may have.
//
// `read_input` answers all octets, or that the input is too long or failed. It takes memory for what
// it reads, and goes over each octet once.
#![tactic(auto)]

mod input_fault;
mod reading;

pub use input_fault::InputFault;
pub use reading::{INPUT_OCTETS, read_input};
