// Octets as hexadecimal digits, and digits as octets, many at a time.
//
// What is read and written is what the kit's `hex` defines. Its calls go over one octet at a time and
// test each index. The loops here are ones that a compiler turns into vectors of sixteen octets.
// `decode` takes memory for the octets alone and reads each digit once. `append` grows the vector once
// and then writes the digits in place.
#![tactic(auto)]

mod decode_fault;
mod reading;
mod writing;

pub use decode_fault::DecodeFault;
pub use reading::decode;
pub use writing::append;
