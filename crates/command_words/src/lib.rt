// The words of the program's command line, and what they ask for.
//
// `words_of` takes the words that the system gave, and `texts_of` lends them as texts. `plan` reads
// them as a command (`specs/Command.antt`).
#![tactic(auto)]

mod arguments;
mod command;
mod commands;
mod number;

pub use arguments::{texts_of, words_of};
pub use command::plan;
pub use commands::Plan;
