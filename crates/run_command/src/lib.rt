// The command `run`: a station that is configured by its input, and what it writes at its end.
//
// `run` reads the configuration, has `run_station` of `station_run` run the station, and writes
// `stored N`, `radiated N` and for each door `door K links N`. `RunStatus` says how a run ends, with
// the line that the status has; `specs/Statuses.antt` says which one it is.
#![tactic(auto)]

mod command;
mod ending;
mod lines;
mod site;
mod status;
mod telling;

pub use command::run;
pub use status::RunStatus;
