// A machine's time whose readings are counted.

use cds_time::UnixTime;
use station_board::TurnPen;
use std::time::Duration;

/// The time of a machine. A worker reads it in each turn, so a reading has the worker's pen, if there
/// is one, count a turn.
#[derive(Drop)]
pub struct CountedTime<U> {
    /// The machine.
    pub machine: U,
    /// Where the worker's turns are counted.
    pub pen: Option<TurnPen>,
}

// Counts a turn.
fn count(pen: &Option<TurnPen>) {
    if let Some(pen) = pen {
        pen.turned();
    }
}

impl<U: UnixTime> UnixTime for CountedTime<U> {
    ghost shown = { λ counted. U.shown counted.machine };

    fn since_1970(&mut self) -> Option<Duration> {
        count(&self.pen);
        self.machine.since_1970()
    }
}
