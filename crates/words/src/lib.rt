// The words of the texts that people write and read: configurations, scripts and transcripts.
//
// A line is words, one blank apart. Each kind of word says once what it reads, what it writes and
// which octets its spellings may have (`specs/`), and carries the proof that reading is exact, that
// what is written is read back, and that no blank and no line end stands in a word. A row puts
// kinds together: `Then<Number<0, 3>, Last<Time>>` is a number and a time behind it. A line form is
// then a definition of a line or two on both sides, and what is proved of rows holds of it.
//
// Reading goes over each octet of a line a constant number of times. `Hex`, `Name` and `ValueWord`
// take memory for the octets of their values, which aren't copied from then on, and `Many` takes it
// for its list. A word of hexadecimal digits that is too long is refused by its length. Writing
// goes over what it writes once, at the end of a vector that may grow.
#![tactic(auto)]

mod cause;
mod channel_word;
mod decimal;
mod fixed;
mod hex_octets;
mod identifier;
mod last;
pub mod laws;
mod line;
mod line_fault;
mod listed;
mod many;
mod maybe;
mod name;
mod nothing;
mod number;
mod number_of;
mod split;
mod then;
mod time_word;
mod unread;
mod word;
mod words_row;

pub use cause::Cause;
pub use channel_word::{ChannelWord, OfMaster};
pub use fixed::{Fixed, FixedText};
pub use hex_octets::{Hex, LentOctets};
pub use identifier::{Identifier, PartWord, ValueWord};
pub use last::Last;
pub use line::{read_line, read_row, read_word, write_line};
pub use line_fault::LineFault;
pub use listed::{Listed, OneOf};
pub use many::Many;
pub use maybe::Maybe;
pub use name::Name;
pub use nothing::Nothing;
pub use number::{Long, Number, Octet, Short};
pub use number_of::NumberOf;
pub use split::split_part;
pub use then::Then;
pub use time_word::{Fraction, Time, When};
pub use unread::Unread;
pub use word::Word;
pub use words_row::{Words, WriteWords};
