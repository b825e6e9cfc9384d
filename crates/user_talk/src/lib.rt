// A user talks to a provider over a link.
//
// `talk` makes one turn of its user that has heard nothing, and then one for each poll: the poll,
// the clock's reading, whether the user is asked to end, what is printed, and the offers. A block that
// the link doesn't take is offered again unchanged, and what is said meanwhile waits behind it; it is
// offered in the turn in which the block was taken. The last line says how the talk ended, where no
// message does.
// `specs/Rounds.antt` has what the calls of the link, the readings of the clock and the lines are, by
// what the outside answered; the module `laws` says what they come to. A turn costs what the user's
// turn does, and moves each octet that is offered twice at most.
#![tactic(auto)]

mod closing;
mod end;
mod end_request;
pub mod laws;
mod outbox;
mod reading;
mod rounds;
mod talking;
mod turn;

pub use end::End;
pub use end_request::EndRequest;
pub use outbox::Answers;
pub use reading::Reading;
pub use talking::talk;
