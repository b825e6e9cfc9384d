// The uplink of a station in a script: what an antenna's worker does, turn by turn.
//
// A turn takes what may radiate and sends it, ends what is in the air, or sets production and
// uplink. What is said of it, its events of the book and what it leaves are a function of the book,
// the reading, the turn and what was sent before (`specs/Turns.antt`).
//
// A turn costs its calls of the book, and a copy of the octets that are sent.
#![tactic(auto)]

mod aloft;
mod turn;
mod turned;
mod uplink;
mod uplink_line;

pub use aloft::Aloft;
pub use turn::Turn;
pub use turned::Turned;
pub use uplink::Uplink;
pub use uplink_line::UplinkLine;
