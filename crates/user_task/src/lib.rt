// What a user of a provider is to do: its invocations in their order, and their messages.
//
// A `Task` says who the user is and what it does with one service instance. `Task::invocation` is
// the invocation at a place: BIND, START, SCHEDULE-STATUS-REPORT where status reports are wanted, a
// TRANSFER-DATA for each CLTU, STOP and UNBIND.
// `Task::put` appends the message of one, with credentials where the user has a password. `fits` is
// the test of what its callers require. The module `laws` has what is proved of every task. An
// invocation costs its octets once, and a digest where it is signed.
#![tactic(auto)]

mod cltus;
mod fitting;
mod invocation;
pub mod laws;
mod message;
mod signature;
mod task;
mod work;

pub use cltus::{CltuLine, Cltus};
pub use invocation::Invocation;
pub use task::{Signing, Task};
pub use work::Work;
