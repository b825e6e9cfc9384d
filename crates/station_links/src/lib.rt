// The connections of a script: a session over a link in memory each.
//
// The steering of a connection's link says what came and what was ordered: pieces, a close, a
// broken poll, stalls. It fixes what each poll hears and how each offer is answered
// (`specs/Rounds.antt`), so a round is a function of how the connection stands, of the book and of
// the reading. All else of a round is *Session* (`session_core`); over whole runs that is a law
// (`specs/Run.antt`).
//
// A round costs what it costs its session, and one copy of the octets that it hears and offers.
#![tactic(auto)]

mod asked;
mod connection;
pub mod laws;
mod link_line;
mod steered;
mod turn;

pub use connection::Connection;
pub use link_line::LinkLine;
pub use turn::Turn;
