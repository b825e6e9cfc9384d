// A source of entries over TCP: lines of entries on a port.
//
// `TcpFeed` is a thin adapter, and tells none of its answers. Proved are its count of faults, and
// that each entry is valid. Trusted is what std and the system do: that it listens where it is told
// to, that the octets are those that were sent, and that what it reports is written.
//
// A call waits for nothing, unless the source has a waiter: then the first call of a recorder's step
// waits, so that an idle source costs nothing and a line is heard at once. A call costs what the
// system takes for a read, the reading of a line, and the memory of its entry.
#![tactic(auto)]

mod heard;
mod line_buffer;
mod log;
mod pacing;
mod sources;
mod tcp_feed;

pub use tcp_feed::TcpFeed;
