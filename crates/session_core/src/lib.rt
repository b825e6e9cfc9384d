// A connection of a user with this provider, from its context to its end (CCSDS 911.1-B, 911.2-B
// and 912.1-B over 913.1-B).
//
// The definition `Session` (`specs/Session.antt`) says what a session does over whole lists of
// rounds, by the answers of its link and of the book: `specs/Steps.antt` has one function for each
// step of a round, `specs/Message.antt` and `specs/Handling.antt` what a message says and leads to,
// `specs/Service.antt` what a message of a bound service is and leads to, `specs/Inquiry.antt` what
// a step asks the book and wants of a look, `specs/Returns.antt` the returns. The module `laws` has
// what holds of every list of rounds.
//
// `Session` does that, one method for each step. It takes its memory when it is made, and holds no
// history: the octets that were not handled yet, the space of a poll, and how it stands. A round
// costs what its octets and its message cost: a message is decoded in one pass, credentials that
// are asked for cost a digest each, and a BIND goes over the site once. A round without
// a message costs little more than the book's answer where no service is bound.
#![tactic(auto)]

mod arrival;
mod bind_places;
mod course;
mod ended;
mod fcltu_served;
mod handling;
pub mod laws;
mod listening;
mod return_served;
mod returns;
mod run;
mod service_steps;
mod session;
mod speaking;
mod spoken;
mod standing;
mod stepping;
mod user_message;

pub use arrival::Arrival;
pub use course::Course;
pub use ended::Ended;
pub use run::{Start, run_rounds};
pub use session::Session;
pub use spoken::Spoken;
pub use standing::Standing;
