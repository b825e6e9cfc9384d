// Where octets go to.
ghost use Rattle.std.specs.Prelude.{List, ℕ, Option, OnOk, OnErr};
ghost use Rattle.octet_core.specs.Fault.{FailsOnlyByFault};
ghost use Rattle.octet_core.specs.Written.{Gains, GainsFront};

use crate::Failed;

/// Where octets go to.
pub trait Sink {
    /// The octets written so far, or none where the sink doesn't tell.
    ghost written: { Self → Option (List ℕ) };

    /// How often the sink has failed. The count never falls, and stands still at the last `u64`.
    ghost faults: { Self → ℕ };

    /// Writes all of the octets, or fails when it wrote those that begin them.
    fn put_all(&mut self, octets: &[u8]) -> Result<(), Failed>
        ensures ok { OnOk result (Gains (written self.old) (written self.new) octets.now) }
        ensures err { OnErr result (GainsFront (written self.old) (written self.new) octets.now) }
        ensures cause { FailsOnlyByFault (faults self.old) (faults self.new) result };
}
