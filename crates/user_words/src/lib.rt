// What the words of a user's command line ask for.
//
// `Plan::read` reads a line by `user_line`, and then each word by its kind (`specs/Plan.antt`):
// none where the words are outside the grammar. A reading goes over each word a constant number of
// times, and takes memory for the line, and for the name, the password and the identifier.
#![tactic(auto)]

mod asked;
mod identity;
mod pass_word;
mod plan;
mod service_word;
mod word;

pub use asked::Asked;
pub use identity::Identity;
pub use plan::Plan;
