// The moments of a script's times.
ghost use Rattle.std.specs.Prelude.{◌≡◌, ◌<◌};
ghost use Rattle.station_desk.specs.Start.{moment};

use cds_time::{Cds, MOMENT_END};

/// The moment of a line's time, which names one by its form.
pub fn moment(time: &Cds) -> u128
    ensures exact { result ≡ moment time.now }
    ensures below { result < MOMENT_END }
{
    time.moment().unwrap_or(0)
}
