// What the lines of a script bring to its connections is octets.
//
// A piece of an `in` line is read from digits. A message that is asked for is spelled from words in
// their ranges: a context, or a PDU whose tree is well formed. So what *Session* takes of the pieces
// that arrive holds of every script (`specs/Pieces.antt`).
//
// The law runs nothing.
#![tactic(auto)]

pub mod laws;
