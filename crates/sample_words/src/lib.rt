// Three line forms by the kinds of their words, as a crate above would write them, with no proof
// file: a first word, a row by a type of one line, the arm that reads it and the arm that writes
// it. Reading and writing cost what they cost in `words`.
#![tactic(auto)]

pub mod laws;
mod pick;
mod script_line;

pub use pick::Pick;
pub use script_line::{ScriptLine, parse_line, write_line};

#[cfg(test)]
mod tests;
