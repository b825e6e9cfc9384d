// What a control centre hears of a provider, as lines: each message of a stream is told as a line
// or more that a person reads and a script parses.
//
// `Told::of` says what a message is: its outer tag names the PDU, and its whole shape is decoded.
// `put_lines` writes the lines of the messages that came whole, one message after the other, up to
// the first that is bad, which is told with its place in the stream. The messages are lent; memory
// is taken for the lines of one message, and kept for the next one. Reading goes over each octet
// once, and a frame's octets once more where they are written.
#![tactic(auto)]

mod lines_fault;
mod put;
mod shown;
mod tag;
mod text;
mod told;

pub use lines_fault::LinesFault;
pub use shown::put_lines;
pub use tag::Tag;
pub use text::{put_bad, put_told};
pub use told::Told;
