// The antenna on a worker's thread: CLTUs are taken and told in turns of the station's lock, and
// sent with no turn open.
//
// `antenna_step` takes what may radiate in one turn, sends it, and tells in another whether it was
// radiated or interrupted. `radiate` makes such steps until all other workers are gone and nothing
// is left. `Works` in `specs/Radiating.antt` says what steps gain, send and read.
#![tactic(auto)]

mod radiating;
mod stepping;

pub use radiating::{Radiated, TurnsSpent, radiate};
pub use stepping::{AntennaStep, antenna_step};
