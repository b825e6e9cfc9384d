// Where octets come from.
ghost use Rattle.std.specs.Prelude.{◌≡◌, List, ℕ, Option, IfOk, OnErr};
ghost use Rattle.octet_core.specs.Fault.{FailsOnlyByFault};
ghost use Rattle.octet_core.specs.Taken.{Gives};

use crate::Failed;

/// Where octets come from, in whatever pieces.
pub trait Source {
    /// The octets not yet taken, or none where the source doesn't tell.
    ghost left: { Self → Option (List ℕ) };

    /// How often the source has failed. The count never falls, and stands still at the last `u64`.
    ghost faults: { Self → ℕ };

    /// Takes the next octets into the front of `into`, and answers how many. None were taken where
    /// the input is at its end, or `into` is empty. After `Failed` what `into` holds is free.
    fn take(&mut self, into: &mut [u8]) -> Result<usize, Failed>
        ensures ok { IfOk result (Gives (left self.old) (left self.new) into.old into.new) }
        ensures err { OnErr result (left self.new ≡ left self.old) }
        ensures cause { FailsOnlyByFault (faults self.old) (faults self.new) result };
}
