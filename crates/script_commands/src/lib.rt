// The commands on scripts, which work on no file: `drill` and `rehearse`.
//
// `drill` reads a script of received frames, other entries, clock readings, STARTs of an offline
// return service and connections of users, has its lines run in the world of `station_law`, and
// writes the transfer buffers that a user would be handed and what a connection's user hears.
// `rehearse` makes a pass of frames from a number, and writes what a START over all of it comes to.
//
// `specs/Promise.antt` says what a drill promises, `specs/Lawful.antt` what holds for the text of every
// script, and `specs/Rehearsals.antt` what a rehearsal promises.
#![tactic(auto)]

mod drilling;
pub mod laws;
mod put;
mod rehearsing;
mod run;

pub use drilling::drill;
pub use rehearsing::rehearse;
