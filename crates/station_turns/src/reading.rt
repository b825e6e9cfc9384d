// A reading of a worker's clock.
ghost use Rattle.std.specs.Prelude.{◌<◌, [], ◌∷◌};
ghost use Rattle.cds_time.specs.declared.cds.TheConstants.{MOMENT_END};
ghost use Rattle.station_turns.specs.Reads.{Reads};

use cds_time::Clock;

/// The moment that a clock shows now, in picoseconds since 1958-01-01. A time that names none
/// counts as moment 0.
pub fn read<C: Clock>(clock: &mut C) -> u128
    ensures below { result < MOMENT_END }
    ensures told { Reads (C.readings clock.old) (C.readings clock.new) (result ∷ []) }
{
    clock.now().moment().unwrap_or(0)
}
