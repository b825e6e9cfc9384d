// What gives the links of users.
ghost use Rattle.std.specs.Prelude.{◌≡◌, ℕ, Bool, true, false, Option, IfOk, IfSome};
ghost use Rattle.octet_core.specs.Fault.{FailsOnlyByFault};
ghost use Rattle.door_model.specs.Shown.{Shown, Shows, answer_of, answered, given_back, out_after};
ghost use Rattle.door_model.specs.Shown.{IsFresh};

use crate::Served;
use link_model::Link;
use octet_core::Failed;

/// What gives the links of users. A door can move to a worker's thread.
pub trait Door: Send + Drop {
    /// What carries the octets of a user's connection.
    type Link: Link;

    /// Its last answer and the links that were given back, or none where the door doesn't show.
    ghost shown: { Self → Option Shown };

    /// Whether a link was given, and none was given back since.
    ghost is_out: { Self → Bool };

    /// How often a call has failed. The count never falls, and stands still at the last `u64`.
    ghost faults: { Self → ℕ };

    /// Gives the next link, of which no call was made yet, and waits for it. None where no further
    /// link comes.
    fn next_link(&mut self) -> Result<Option<Self::Link>, Failed>
        ensures shown { Shows (shown self.old) (shown self.new) (answered (answer_of result)) }
        ensures fresh { IfOk result (λ given. IfSome given (λ link.
            IsFresh (Self.Link.calls link))) }
        ensures out { is_out self.new ≡ out_after (answer_of result) (is_out self.old) }
        ensures faults { FailsOnlyByFault (faults self.old) (faults self.new) result };

    /// Takes a link back whose serving ended so. It takes no memory.
    fn give_back(&mut self, link: Self::Link, served: Served)
        requires { is_out self.old ≡ true }
        ensures shown { Shows (shown self.old) (shown self.new)
            (given_back (record { calls = Self.Link.calls link; served = served })) }
        ensures out { is_out self.new ≡ false }
        ensures faults { faults self.new ≡ faults self.old };
}
