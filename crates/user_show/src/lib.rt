// Prints a recorded stream, and says how a user program ends.
//
// `show` reads a whole input and writes the lines of its messages, up to the first that is bad;
// octets behind the last message that make none are bad too. `Ending` has each way in which a user
// program ends, and its exit code. Memory is taken for the input and for the lines of one message.
#![tactic(auto)]

mod ending;
mod last_line;
mod showing;

pub use ending::Ending;
pub use last_line::end_with;
pub use showing::show;
