// The lines of a script, and the head that they may begin with.
//
// `split_line` splits a text behind its first line. `split_head` splits a script behind its head,
// which is the configuration of its station: where the first line is `site`, the lines behind it up
// to a line `end` (`specs/Head.antt`).
//
// A call looks at each octet once or twice, copies none and takes no memory.
#![tactic(auto)]

mod head;
mod lines;

pub use head::{Head, split_head};
pub use lines::split_line;
