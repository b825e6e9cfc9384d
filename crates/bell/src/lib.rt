// What ends waits of a station's threads: a socket that is ready, a ring of a bell, and the time.
//
// A `Waiter` is what one thread waits with (epoll, by the kit's `mio`). `Bells` are rung where
// something was done that others wait for, and end the waits of these. A ring that comes while a
// thread doesn't wait ends its next wait, so none is lost; a wait may end with nothing to be done.
// `Resting` is a runtime whose sleeps a ring ends.
//
// No clause says that a ring is heard, nor how long a wait lasts: that is the system's. A wait costs
// one system call, a ring one for each thread that it wakes.
#![tactic(auto)]

mod bells;
mod resting;
mod waiter;

pub use bells::Bells;
pub use resting::Resting;
pub use waiter::{Ringer, Waiter};
