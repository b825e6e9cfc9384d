// A script and what its lines led to, read into the lanes of a picture and the rows of a table.
//
// `read_pass` takes the script, and the transcript of the same script with a START in front of each
// line that stands behind its head, which the desk refuses and of which nothing else is left: so the
// transcript has a line `refused 3` (the mark) before what each line led to. Each line of the script
// is a row, with its lines of the transcript and with words; each one that says something is a column
// of the lanes, too. Lines are read by `drill_text` and `explain_lines`, messages by `user_lines`.
//
// Reading goes over each line a constant number of times.
#![tactic(auto)]

mod asked;
mod connection;
mod entries;
mod line;
mod marked;
mod message;
mod orders;
mod outcome;
mod pass;
mod row;
mod said;
mod service;

pub use pass::{Pass, read_pass};
