// A caller of the lock in small: an account at which desks with clerks of their own have orders
// booked.
//
// An order owns octets, which the account takes in under the lock, and the reply goes on to the
// desk. So what happened in a turn is named by snapshots without octets (`Call`), which determine
// the event. Each clerk has a thread, a pass and a desk; they are started by halves, and where a
// thread can't be started its caller does the work. Once all passes were joined the lock is closed,
// and what one thread gets that books the history's orders one after the other is what they got
// together: each event of the history is one clerk's, with the order and the reading that its desk
// gave and the reply that its desk was told.
#![tactic(auto)]

mod account;
mod booking;
mod call;
mod desk;
mod order;
mod run;
mod seat;
mod serve;

pub use account::{Account, Opening};
pub use booking::Booking;
pub use call::{Call, visit};
pub use desk::{Clock, Counter, Desk, Post};
pub use order::{Order, Posting, Reply};
pub use run::run_desks;
pub use seat::Seat;
pub use serve::serve_posts;

#[cfg(test)]
mod tests;
