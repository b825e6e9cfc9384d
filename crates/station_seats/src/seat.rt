// The seat of a door's worker.

use crate::report::DoorReport;
use station_book::Event;
use turn_lock::Pass;

/// The seat of a door's worker: its pass, and what it reports.
#[derive(Drop)]
pub struct DoorSeat {
    pub pass: Pass<Event>,
    pub report: DoorReport,
}
