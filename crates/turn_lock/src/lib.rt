// A lock that hands a value over in turns, in the order in which they were asked for.
//
// A thread holds a `Pass`, which has a number of turns. `Turns::enter` opens a turn, and the `Turn`
// owns the value until `commit` or `leave` ends it. A pass is split to give turns to another thread
// and joined to take them back, and `close` gives the value out once every pass that entered a turn
// was joined.
//
// Contracts see more than the code keeps. A value stands for a list of events from an origin
// (`StandsFor`), and there is one history: each turn starts with a value that stands for it, and
// `commit` makes it longer by one event, in the one atomic step on the word that counts it. A pass
// knows a beginning of the history that it has seen, and which events are its own.
//
// Waiting: a thread draws a ticket by one fetch_add and looks which ticket is served. While that is
// another, it looks up to a hundred times more, and then sleeps on the low 32 bits of the word. The
// end of a turn serves the next ticket and wakes all sleepers, of which one goes on and the others
// sleep again. A turn with nobody waiting costs three atomic steps to enter, and three and one call
// of the system to end, whatever the value is.
//
// No contract says that a thread gets on: `enter` returns once every turn with an earlier ticket
// has ended, and never where one of these was dropped.
#![tactic(auto)]

mod event;
mod guard;
pub mod laws;
mod lock_fault;
mod pass;
mod steps;
mod turn;
mod turns;
mod view;

pub use event::{HistoryEvent, Names, StandsFor};
pub use lock_fault::LockFault;
pub use pass::{Pass, Standing};
pub use turn::Turn;
pub use turns::Turns;
