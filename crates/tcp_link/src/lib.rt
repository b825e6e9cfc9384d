// A link over a TCP stream.
//
// `TcpLink` is a thin adapter, and tells none of its calls. Proved are its counts of faults and
// stalls, that an offer stalls exactly where octets of the block before are left, that a further
// block is taken only where none are, and that no more octets arrive than there is space for.
// Trusted is what std and the system do with the octets: that what is written arrives in order and
// once, that what is read is what arrived, and that a call waits no longer than it is told to and
// ends its wait at a ring.
//
// A call costs a system call or two, and one copy of the octets that the system didn't take at
// once. Memory is taken for the longest block: with `LinkGear`, once for one link after the other.
#![tactic(auto)]

mod tcp_link;

pub use tcp_link::{LONGEST_BLOCK, LinkGear, TcpLink};
