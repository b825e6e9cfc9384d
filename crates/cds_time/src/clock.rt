// Where a program gets its moments from.
ghost use Rattle.std.specs.Prelude.{List, Option};
ghost use Rattle.cds_time.specs.declared.cds.Cds.{Cds};
ghost use Rattle.cds_time.specs.Readings.{TellsNext};

use crate::Cds;

/// Where a program reads the time.
///
/// A reading can't fail. One that names no moment counts as moment 0. A clock can move to a
/// worker's thread.
pub trait Clock: Drop + Send {
    /// The readings so far, the oldest first, or none where the clock doesn't tell.
    ghost readings: { Self → Option (List Cds) };

    /// The time now.
    fn now(&mut self) -> Cds
        ensures { TellsNext (readings self.old) (readings self.new) result };
}
