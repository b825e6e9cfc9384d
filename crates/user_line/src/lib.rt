// The command line of a user's program, as clap reads it.
//
// A line is a command's name, and behind it as many words as the command has, none of which is
// empty or begins with a hyphen. `Line::read` judges that first, and then has clap read the line;
// what clap gives is proved to be the line's own words. A reading takes memory for what clap is
// told of the commands, a few kilobytes, and for the list of the words, which aren't copied.
#![tactic(auto)]

mod clap_reading;
mod form;
pub mod laws;
mod line;

pub use form::Form;
pub use line::Line;
