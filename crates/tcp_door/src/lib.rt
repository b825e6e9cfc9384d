// A door over a TCP listener.
//
// `TcpDoor` is a thin adapter, and shows nothing; `DoorLink` is the link that it gives. Proved are
// their counts, and whether a link is out. Trusted is what std and the system do: that it listens
// where it is told to, that a connection which was accepted is a user's, and that what it reports is
// written.
//
// It reports each connection and how its serving ended, in a line each. A connection that hasn't
// spoken yet is given to nobody; one that is silent for too long is closed. Doors may share a port
// (`DoorPort`). Once its station is to stop (`Stop`), no further link comes, and the link that is out
// comes to an end.
//
// A door with a place on the station's board (`DoorPen`) tells it what it and its links do, and whom
// a BIND named that came over them.
//
// A call costs what the system takes to accept a connection. Memory is taken when a door is made, and
// with a board for the first octets of a connection, up to 4,096 until its BIND is whole.
#![tactic(auto)]

mod bind_tap;
mod callers;
mod door_link;
mod door_port;
mod doorway;
mod hearing;
mod log;
mod tcp_door;
mod teller;

pub use door_link::DoorLink;
pub use door_port::DoorPort;
pub use hearing::Limits;
pub use tcp_door::TcpDoor;
