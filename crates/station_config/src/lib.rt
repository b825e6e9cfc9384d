// The configuration of a station: the text that a person writes, and the site that it says: who may
// bind, which service instances there are, and the station's limits.
//
// `Site::parse` gives the site of a text, or the number of its first bad line and the first cause
// why that is refused. `specs/Grammar.antt` has the lines, as rows of the words of `words`, and
// `specs/Drafts.antt` what they say together. A site that is read is valid (`specs/Validity.antt`):
// the crates above ask for that and for nothing else.
//
// Reading goes over each octet a constant number of times, and compares the name or identifier of a
// peer's or an instance's line with those before it, of which there are 32 at most. It takes memory
// for the octets that the site keeps, and for an owner's name while its line is read.
#![tactic(auto)]

mod cause;
mod channels;
mod draft;
mod fault;
mod hash_word;
mod heartbeat;
mod instance;
mod instance_line;
mod instances;
pub mod laws;
mod level;
mod level_word;
mod line;
mod mode_word;
mod owner_word;
mod peer;
mod peers;
mod reading;
mod rows;
mod service;
mod site;
mod unfit;

pub use channels::Channels;
pub use fault::SiteFault;
pub use instance::Instance;
pub use instances::Instances;
pub use level::Level;
pub use peer::Peer;
pub use peers::Peers;
pub use service::Service;
pub use site::Site;
