// The lines of a text that names the CLTUs which a user sends.
//
// A line is `cltu ID EARLIEST LATEST DELAY NOTIFY HEX`; an empty line, and one whose first character
// is `#`, are skipped. `read_cltus` answers the CLTUs in order, or the number of the first line that
// is bad (`specs/CltuText.antt`). A reading goes over each octet a constant number of times, and
// takes memory for the octets of the CLTUs.
#![tactic(auto)]

mod line;
mod notify_word;
mod reading;
mod text_fault;

pub use reading::read_cltus;
pub use text_fault::TextFault;
