// A link that gives the same octets at each poll, takes each block, and keeps nothing.
ghost use Rattle.std.specs.Prelude.{◌∷◌, [], None, false, length};
ghost use Rattle.link_model.specs.declared.call.Call.TheVariants.{Polled, Offered};
ghost use Rattle.link_model.specs.Calls.{Tells, heard_of, IsWithin};
ghost use Rattle.link_model.specs.Counts.{CountsWhere, poll_failed, offer_failed, offer_stalled};

use link_model::{Link, Poll};
use octet_core::Offer;

#[derive(Drop)]
pub struct Line<'a> {
    pub piece: &'a [u8],
    pub handed: u64,
}

impl<'a> Line<'a> {
    pub fn new(piece: &'a [u8]) -> Line<'a> {
        Line { piece, handed: 0 }
    }
}

impl<'a> Link for Line<'a> {
    ghost calls = { λ line. None };

    ghost faults = { λ line. 0 };

    ghost stalls = { λ line. 0 };

    fn poll(&mut self, into: &mut [u8]) -> Poll
        ensures told { Tells None None (Polled (length into.old) (heard_of result into.new) ∷ []) }
        ensures within { IsWithin result (length into.old) }
        ensures faults { CountsWhere (poll_failed result) 0 0 }
        ensures stalls { CountsWhere false 0 0 }
    {
        let count = self.piece.len().min(into.len());
        if count == 0 {
            return Poll::Nothing;
        }
        into[..count].copy_from_slice(&self.piece[..count]);
        Poll::Arrived(count)
    }

    fn offer(&mut self, octets: &[u8]) -> Offer
        ensures told { Tells None None (Offered octets.now result ∷ []) }
        ensures faults { CountsWhere (offer_failed result) 0 0 }
        ensures stalls { CountsWhere (offer_stalled result) 0 0 }
    {
        self.handed = self.handed.saturating_add(octets.len() as u64);
        Offer::Whole
    }
}
