// The lines of scripts and of transcripts, and an entry as the line that offers it.
//
// `parse_line` reads a line of a script, `write_line` appends one of a transcript, and
// `write_entry_line` the script line of an entry. All lines are forms of a table (`specs/`): a
// first word, and a row of words behind it, each in its range. `laws` says that lines are read
// exactly where they say a thing, that the canonical line is read back, and that none holds a line
// end.
//
// A script's head of configuration lines isn't read here, and nothing is said of what a line does.
//
// Reading goes over each octet of a line a constant number of times. Octets, names and the list of
// an identifier take memory and aren't copied from then on: a frame's digits are decoded once, into
// the octets of its entry. Writing goes over what it writes once, into a vector of the line's own,
// and copies that behind the text. Want of memory leaves the text as it was.
#![tactic(auto)]

mod ask_form;
mod ask_line;
mod ask_row;
mod end_put;
mod end_word;
mod entry_line;
mod fail_row;
pub mod laws;
mod line_fault;
mod notice_word;
mod parse;
mod pick;
mod report_word;
mod rows;
mod script_form;
mod script_line;
mod transcript_line;
mod wanted;
mod write;

pub use ask_line::AskLine;
pub use end_word::EndWord;
pub use entry_line::write_entry_line;
pub use line_fault::LineFault;
pub use parse::parse_line;
pub use pick::Pick;
pub use script_line::ScriptLine;
pub use transcript_line::TranscriptLine;
pub use write::write_line;
