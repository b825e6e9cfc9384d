// What the lines of a transcript and of a list say, in words that a person reads.
//
// `put_transcript_line` and `put_entry` append what happened to a `Text` of `explain_words`: a title,
// and fields behind it. `Ending::of` finds the lines that end an output. What a line says was read
// before; nothing is promised of the words.
#![tactic(auto)]

mod ending;
mod entry;
mod transcript;

pub use ending::{Ending, put_ending};
pub use entry::put_entry;
pub use transcript::put_transcript_line;
