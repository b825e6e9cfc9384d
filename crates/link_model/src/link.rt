// What carries the octets of a connection.
ghost use Rattle.std.specs.Prelude.{[], ◌∷◌, ℕ, List, Option, false, length};
ghost use Rattle.link_model.specs.declared.call.Call.{Call};
ghost use Rattle.link_model.specs.declared.call.Call.TheVariants.{Polled, Offered};
ghost use Rattle.link_model.specs.Calls.{Tells, heard_of, IsWithin};
ghost use Rattle.link_model.specs.Counts.{CountsWhere, poll_failed, offer_failed, offer_stalled};

use crate::Poll;
use octet_core::Offer;

/// What carries the octets of a connection. A link can move to a worker's thread.
pub trait Link: Send + Drop {
    /// The calls so far with their answers, the oldest first, or none where the link doesn't tell.
    ghost calls: { Self → Option (List Call) };

    /// How often a call has failed. The count never falls, and stands still at the last `u64`.
    ghost faults: { Self → ℕ };

    /// How often an offer has stalled. The count never falls, and stands still at the last `u64`.
    ghost stalls: { Self → ℕ };

    /// Takes the next octets that arrived into the front of `into`. What is behind them is free.
    fn poll(&mut self, into: &mut [u8]) -> Poll
        ensures told { Tells (calls self.old) (calls self.new)
            (Polled (length into.old) (heard_of result into.new) ∷ []) }
        ensures within { IsWithin result (length into.old) }
        ensures faults { CountsWhere (poll_failed result) (faults self.old) (faults self.new) }
        ensures stalls { CountsWhere false (stalls self.old) (stalls self.new) };

    /// Offers a block of octets, of which it takes all or none.
    fn offer(&mut self, octets: &[u8]) -> Offer
        ensures told { Tells (calls self.old) (calls self.new)
            (Offered octets.now result ∷ []) }
        ensures faults { CountsWhere (offer_failed result) (faults self.old) (faults self.new) }
        ensures stalls { CountsWhere (offer_stalled result) (stalls self.old)
            (stalls self.new) };
}
