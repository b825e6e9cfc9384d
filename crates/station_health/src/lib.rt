// What is wrong with a station, and whether it is healthy, as functions of a snapshot.
//
// `Trouble` is what may be wrong: each has a name for programs, words that say what it is, and words
// that say what to do. `is_healthy` holds exactly if no serious trouble is there. `health_text` names each trouble
// that is there. The rules are those of `specs/Health.antt`.
//
// A call costs a walk over the doors for each trouble that it judges.
#![tactic(auto)]

mod health;
mod rules;
mod trouble;

pub use health::{health_text, is_healthy};
pub use rules::is_serving;
pub use trouble::Trouble;
