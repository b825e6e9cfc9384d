// Lines that the programs print, read back: those of a transcript, and those of a stream that a
// user of a service hears.
//
// `parse_transcript` and `parse_stream` say what a line says, or that it is no such line. All lines
// are forms of a table (`specs/`): a first word, and a row of words behind it. The lines of a
// transcript are those of `drill_text`'s definition. Reading goes over each octet of a line a
// constant number of times, and takes memory for octets and numbers that it hands out.
#![tactic(auto)]

mod end_row;
mod hex_word;
mod kinds;
mod stream;
mod stream_form;
mod stream_line;
mod transcribed;
mod transcript;
mod transcript_form;

pub use kinds::{Antenna, Integer};
pub use stream::parse_stream;
pub use stream_line::StreamLine;
pub use transcribed::Transcribed;
pub use transcript::parse_transcript;
