// A station that runs: its recorder, its antenna and its doors, each on a worker's thread.
//
// `run_station` opens the archive, puts a book over its entries under the station's lock, and gives
// each worker turns of its own, before the first one starts. They run all at once: the recorder of
// `recorder_turns`, the antenna of `antenna_turns`, and a worker for each door of `door_turns`. Each
// tells in a turn at its end that it is gone; the antenna's worker ends once all others have. Then
// the passes are joined and the lock is closed.
#![tactic(auto)]

mod crew;
mod report;
mod station;
mod together;
mod workers;

pub use report::{RunReport, StartFault};
pub use station::run_station;
