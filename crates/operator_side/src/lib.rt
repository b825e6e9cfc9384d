// The operator's side of a station's adapters: a stop, asked for at a port and seen by all that share
// it, and lines of a report.
//
// `Stop` says whether a stop was asked for, and looks for one at its place, a `StopPort`. `report`
// writes a line whole, and `Stamped` writes on standard error, with the time. `SteadyTime` is a
// station's time, which no step of the machine's clock changes, and `ClockWatch` reports such a step.
// `Uptime` measures how long something lasts. `Listening` listens at a TCP port or a Unix socket, and
// `is_passing` says which errors of accepting a connection pass. Trusted is what std and the system
// do: no clause says that a stop is heard, that a call comes back, or that a line is written.
//
// To ask costs one write to memory, to see it one read, and a look at the place a system call or two.
#![tactic(auto)]

mod accepting;
mod listening;
mod once;
mod reporting;
mod stamping;
mod steady;
mod stop;
mod stop_port;
mod uptime;

pub use accepting::{Passing, RETRY_MILLIS, is_early, is_passing};
pub use listening::{Listening, Peer, Place};
pub use once::Once;
pub use reporting::report;
pub use stamping::Stamped;
pub use steady::{ClockWatch, SteadyTime};
pub use stop::Stop;
pub use stop_port::StopPort;
pub use uptime::Uptime;
