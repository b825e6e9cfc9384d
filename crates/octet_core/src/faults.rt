// The count of an object's faults.
ghost use Rattle.std.specs.Prelude.{◌≡◌, ℕ, IsErr};
ghost use Rattle.octet_core.specs.Fault.{FailsOnlyByFault, count_up};

use crate::Failed;
use std::marker::Model;

/// How often an object of the outside has failed, seen by contracts as that number. The count never
/// falls, and stands still at the last `u64`.
#[derive(Debug, Drop)]
pub struct Faults {
    count: u64,
}

impl Model for Faults {
    ghost Value = { ℕ };

    ghost view = { λ faults. faults.count };
}

impl Faults {
    /// The count of an object that hasn't failed yet.
    pub fn new() -> Faults
        ensures { result ≡ 0 }
    {
        Faults { count: 0 }
    }

    /// How often it has failed.
    pub fn count(&self) -> u64
        ensures { result ≡ self.now }
    {
        self.count
    }

    /// Counts a fault of a call, and answers that it failed.
    pub fn fail<T>(&mut self) -> Result<T, Failed>
        ensures answer { IsErr result }
        ensures counted { self.new ≡ count_up self.old }
        ensures cause { FailsOnlyByFault self.old self.new result }
    {
        self.count = self.count.saturating_add(1);
        Err(Failed)
    }
}
