// What a recorder stored and dropped.
ghost use Rattle.std.specs.Prelude.{◌≡◌, ◌+◌, min, []};
ghost use Rattle.octet_core.specs.Fault.{last_count};
ghost use Rattle.recorder_turns.specs.Steps.{tally_of};

use crate::step::StepCounts;

/// How many entries a recorder's worker stored and published, and how many it dropped. A count
/// stands still at the last `u64`.
#[derive(Clone, Copy, Debug, PartialEq, Eq)]
pub struct Tally {
    /// Those that were stored and published.
    pub stored: u64,
    /// Those that were dropped as backward or too long.
    pub refused: u64,
    /// Those that were dropped as full.
    pub full: u64,
}

impl Tally {
    // Nothing came yet.
    pub(crate) fn none() -> Tally
        ensures { result ≡ tally_of [] }
    {
        Tally {
            stored: 0,
            refused: 0,
            full: 0,
        }
    }

    // One more step was made.
    pub(crate) fn add(&mut self, step: &StepCounts)
        ensures { self.new ≡ record {
          stored = min (self.old.stored + step.now.stored) last_count;
          refused = min (self.old.refused + step.now.refused) last_count;
          full = min (self.old.full + step.now.full) last_count;
        } }
    {
        self.stored = self.stored.saturating_add(step.stored);
        self.refused = self.refused.saturating_add(step.refused);
        self.full = self.full.saturating_add(step.full);
    }
}
