// How a command of the program ends: its status, which is the exit code, and the line that it writes.
//
// `Status` is how a command ended, and `tell` writes a command's whole text and answers the exit
// code. `put_line` writes a part of a text, for a command that goes on behind it. A call makes one
// write, and takes no memory.
#![tactic(auto)]

mod put;
mod status;

pub use put::{put_line, tell};
pub use status::Status;
