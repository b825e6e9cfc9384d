// The place at which a station's status page is served.
//
// `StatusPort` listens at a port of the loopback or at a Unix socket. Each call of `look` serves what
// has come, and waits for nothing: at most four connections at once, each for at most two seconds and
// one answer, with heads of at most 4,096 octets and no body. What a connection is answered is the
// contract of `answer`; trusted is what std and the system do.
//
// A look that finds nobody costs a system call. A snapshot is taken only where octets came.
#![tactic(auto)]

mod answering;
mod caller;
mod status_port;

pub use answering::answer;
pub use status_port::StatusPort;
