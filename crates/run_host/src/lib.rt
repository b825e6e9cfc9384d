// What the machine has for `run`: the archive's file, doors and a source of entries over TCP, an
// antenna over a file, and the machine's clock.
//
// `open_files` opens the files that a plan names, `RunPlace` is what the environment says of where
// the station listens, and `open_sockets` makes everything else. Doors listen at the place's
// address, and the source of entries at the loopback alone. Connections, how they ended and what
// fails are told on standard error, a line each with its time. `LateFrames` and `LateAntenna` open
// nothing where there is no run.
//
// If the place has a port for that, a stop is asked for there. Then the doors give no further link,
// the links that are out and the source come to an end, and so does the run. The source of entries
// looks in each call that has no line left to give, once a second at least, and the antenna's worker
// at readings of its clock: it is the last one to go, and looks also after a fault has ended the
// recorder, which calls the source.
//
// No worker polls. A door waits for octets, connections and rings, the source for lines and rings,
// and the antenna's worker sleeps until it is rung or its time has passed (`Resting`). Rung are the
// doors when entries were published and when a radiation was told, the antenna's worker when a user
// may have asked for one, and all at a stop.
#![tactic(auto)]

mod capacity;
mod files;
mod fullness;
mod host;
mod late;
mod logged_file;
mod place;
mod ringing;
mod serving;
mod status;
mod watching;

pub use capacity::{Capacity, KeptInput};
pub use files::{LoggedDisk, RunFiles, open_files, text_of};
pub use fullness::Fullness;
pub use host::{
    MachineClock, MachineDoor, MachineFeed, RunSockets, draw_of, machine_clock, open_sockets,
    tell_end,
};
pub use late::{LateAntenna, LateFrames};
pub use logged_file::LoggedFile;
pub use place::{PlaceFault, RunPlace};
pub use serving::{StatusSide, StatusThread};
pub use status::StatusPlace;
pub use watching::SocketFault;
