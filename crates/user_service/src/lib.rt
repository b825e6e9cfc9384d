// A user's program over any input, output, link and clock.
//
// `use_service` reads the words of a command line and does what they ask for: it shows a recorded
// stream, or talks to a provider to receive frames or to have the CLTUs of its input radiated, which
// it reads to the end before it says anything. `specs/Service.antt` says what each command line comes
// to, and `specs/Streams.antt` what a talk is in the words of its streams: the octets that the polls
// gave, those that the link was handed, and the lines. Its cost is that of the calls that it makes,
// `Plan::read`, `show`, `read_input`, `read_cltus` and `talk`.
#![tactic(auto)]

mod kit;
mod sending;
mod service;
mod unsent;

pub use kit::UserKit;
pub use service::use_service;
