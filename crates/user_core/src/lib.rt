// What a user of a provider does: it prints what it hears, and says what its task asks for when the
// time has come.
//
// A `User` is made of a task. `User::turn` hears what came at a moment, and answers the octets to be
// offered, the lines to be printed, and how the user ended once it has. A turn's clause is
// `turned`, a fold over the messages that came whole; no link stands in it. The user opens with its
// context and BIND; each further invocation is said once the return of the one before came, and
// what STOP waits for: the end of the data of RAF and RCF, the last notice of the CLTUs. A heartbeat
// goes out where nothing was offered for 30 seconds. The module `laws` has what is proved of every
// list of turns. A turn goes over each octet once, and keeps those that make no message yet.
#![tactic(auto)]

mod course;
mod dialogue;
mod event;
mod hearing;
pub mod laws;
mod status;
mod stream;
mod user;

pub use hearing::Heard;
pub use status::Status;
pub use user::{Turned, User};
