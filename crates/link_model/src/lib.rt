// The link of a connection: what carries its octets, as a session meets it.
//
// A `Link` is polled for octets and offered blocks of them. It has two counts, of faults and of
// stalls: a call answers `Failed` or `Stalled` exactly where it makes that count go up by one. A
// link that tells has one list of its calls with their answers; the octets that arrived and the
// blocks that it took are parts of that list (`specs/Calls.antt`). A link may stop telling, and
// then never tells again.
//
// `MemoryLink` is a link in memory. It is steered by what came, by a close, by a broken poll, by
// stalls and by a list of failing calls, and its clauses say what each call answers then.
//
// What a call costs grows with the octets that it moves, and with nothing else.
#![tactic(auto)]

mod call;
pub mod laws;
mod link;
mod memory_link;
mod piece;
mod poll;

pub use call::{Call, Heard};
pub use link::Link;
pub use memory_link::MemoryLink;
pub use poll::Poll;
