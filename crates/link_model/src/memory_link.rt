// A link in memory.
ghost use Rattle.std.specs.Prelude.{◌≡◌, ◌∷◌, [], OnOk, OnErr, false, Some, length};
ghost use Rattle.std.specs.Prelude.{option_copied, option_map};
ghost use Rattle.link_model.specs.declared.call.Call.TheVariants.{Polled, Offered};
ghost use Rattle.link_model.specs.Calls.{Tells, heard_of, IsWithin};
ghost use Rattle.link_model.specs.Counts.{CountsWhere, poll_failed, offer_failed, offer_stalled};
ghost use Rattle.link_model.specs.Steering.{unsteered, with_piece, shut_behind, broken_next};
ghost use Rattle.link_model.specs.Steering.{stalling_for, next_heard, pieces_left, heard_by};
ghost use Rattle.link_model.specs.Steering.{after_poll, answer_to_offer, after_offer};
ghost use Rattle.link_model.specs.MemoryLink.{steered};

use crate::piece::Piece;
use crate::{Call, Heard, Link, Poll};
use octet_core::{FailingCalls, Faults, Memory, Octets, Offer};
use std::alloc::Global;
use std::collections::VecDeque;
use std::marker::Model;
use std::mem;

/// A link in memory, which is steered from outside and tells its calls.
///
/// Where memory is refused to the calls that it tells, it stops telling, and answers as before.
#[derive(Debug, Drop)]
pub struct MemoryLink {
    alloc: Global,
    pieces: VecDeque<Piece>,
    is_shut: bool,
    is_broken: bool,
    stalling: u64,
    failing: FailingCalls,
    calls: Vec<Call>,
    tells: bool,
    faults: Faults,
    stalls: u64,
}

impl Model for MemoryLink {
    ghost use Rattle.link_model.specs.MemoryLink.{LinkState, told_of};

    ghost Value = { LinkState };

    ghost view = { λ link. record {
      steering = record {
        pieces = link.pieces.items;
        is_shut = link.is_shut;
        is_broken = link.is_broken;
        stalling = link.stalling;
        failing = link.failing;
      };
      told = told_of link.tells link.calls.items;
      faults = link.faults;
      stalls = link.stalls;
    } };
}

impl MemoryLink {
    /// A link to which nothing came yet, and whose calls of this list fail, polls and offers
    /// counted together from 1.
    pub fn new(alloc: Global, failing_calls: Vec<u64>) -> MemoryLink
        ensures { result ≡ record {
          steering = unsteered failing_calls.items;
          told = Some [];
          faults = 0;
          stalls = 0;
        } }
    {
        MemoryLink {
            alloc,
            pieces: VecDeque::new(alloc),
            is_shut: false,
            is_broken: false,
            stalling: 0,
            failing: FailingCalls::new(failing_calls),
            calls: Vec::new(alloc),
            tells: true,
            faults: Faults::new(),
            stalls: 0,
        }
    }

    /// A piece of octets comes. Behind a close none is read.
    pub fn arrive(&mut self, piece: Octets) -> Result<(), Memory>
        ensures ok { OnOk result (self.new ≡ steered self.old
            (with_piece self.old.steering piece)) }
        ensures err { OnErr result (self.new ≡ self.old) }
    {
        if !self.is_shut {
            self.pieces.push_back(Piece::new(piece))?;
        }
        Ok(())
    }

    /// The peer closes behind the pieces that came.
    pub fn shut(&mut self)
        ensures { self.new ≡ steered self.old (shut_behind self.old.steering) }
    {
        self.is_shut = true;
    }

    /// The next poll fails, though pieces wait.
    pub fn break_poll(&mut self)
        ensures { self.new ≡ steered self.old (broken_next self.old.steering) }
    {
        self.is_broken = true;
    }

    /// So many of the next offers stall, in place of those that were to stall before.
    pub fn stall(&mut self, offers: u64)
        ensures { self.new ≡ steered self.old (stalling_for self.old.steering offers) }
    {
        self.stalling = offers;
    }

    /// The calls so far with their answers, or none once memory was refused to them.
    pub fn told(&self) -> Option<&[Call]>
        ensures { option_copied result ≡ self.now.told }
    {
        if self.tells { Some(&self.calls) } else { None }
    }

    /// Takes off the calls so far with their answers: it tells those behind them from now on. None
    /// once memory was refused to them, and it tells none from then on.
    pub fn take_told(&mut self) -> Option<Vec<Call>>
        ensures told { option_map (λ calls. calls.items) result ≡ self.old.told }
        ensures rest { self.new ≡ record self.old {
          told = option_map (λ calls. []) self.old.told;
        } }
    {
        if !self.tells {
            return None;
        }
        Some(mem::replace(&mut self.calls, Vec::new(self.alloc)))
    }

    /// How often a call has failed.
    pub fn faults(&self) -> u64
        ensures { result ≡ self.now.faults }
    {
        self.faults.count()
    }

    /// How often an offer has stalled.
    pub fn stalls(&self) -> u64
        ensures { result ≡ self.now.stalls }
    {
        self.stalls
    }

    // Keeps a call.
    fn keep(&mut self, call: Call)
        ensures told { Tells self.old.told self.new.told (call ∷ []) }
        ensures rest { self.new ≡ record self.old { told = self.new.told } }
    {
        if self.calls.push(call).is_err() {
            self.tells = false;
        }
    }
}

// What a poll without a fault hears, and what is left of the pieces.
fn hear(pieces: &mut VecDeque<Piece>, is_shut: bool, into: &mut [u8]) -> Poll
    ensures within { IsWithin result (length into.old) }
    ensures heard { heard_of result into.new ≡ next_heard pieces.old.items is_shut
        (length into.old) }
    ensures left { pieces.new.items ≡ pieces_left pieces.old.items (length into.old) }
{
    let Some(piece) = pieces.front_mut() else {
        return if is_shut { Poll::Closed } else { Poll::Nothing };
    };
    let count = piece.give(into);
    if piece.is_empty() {
        pieces.pop_front();
    }
    if count == 0 {
        Poll::Nothing
    } else {
        Poll::Arrived(count)
    }
}

impl MemoryLink {
    // Answers a poll.
    fn answer_poll(&mut self, into: &mut [u8]) -> Poll
        ensures within { IsWithin result (length into.old) }
        ensures heard { heard_of result into.new ≡ heard_by self.old.steering
            (length into.old) }
        ensures faults { CountsWhere (poll_failed result) self.old.faults self.new.faults }
        ensures rest { self.new ≡ record self.old {
          steering = after_poll self.old.steering (length into.old);
          faults = self.new.faults;
        } }
    {
        let is_listed = self.failing.count_call();
        if is_listed || self.is_broken {
            self.is_broken = false;
            let _ = self.faults.fail::<()>();
            return Poll::Failed;
        }
        hear(&mut self.pieces, self.is_shut, into)
    }

    // Answers an offer.
    fn answer_offer(&mut self) -> Offer
        ensures answer { result ≡ answer_to_offer self.old.steering }
        ensures faults { CountsWhere (offer_failed result) self.old.faults self.new.faults }
        ensures stalls { CountsWhere (offer_stalled result) self.old.stalls self.new.stalls }
        ensures rest { self.new ≡ record self.old {
          steering = after_offer self.old.steering;
          faults = self.new.faults;
          stalls = self.new.stalls;
        } }
    {
        let is_listed = self.failing.count_call();
        let is_stalling = self.stalling > 0;
        self.stalling = self.stalling.saturating_sub(1);
        if is_listed {
            let _ = self.faults.fail::<()>();
            return Offer::Failed;
        }
        if is_stalling {
            self.stalls = self.stalls.saturating_add(1);
            return Offer::Stalled;
        }
        Offer::Whole
    }

    // Keeps a poll with what it heard.
    fn keep_poll(&mut self, answer: Poll, space: &[u8])
        requires { IsWithin answer (length space.now) }
        ensures told { Tells self.old.told self.new.told
            (Polled (length space.now) (heard_of answer space.now) ∷ []) }
        ensures rest { self.new ≡ record self.old { told = self.new.told } }
    {
        let heard = match answer {
            Poll::Arrived(count) => match Octets::copy_of(self.alloc, &space[..count]) {
                Ok(octets) => Heard::Arrived(octets),
                Err(_) => {
                    self.tells = false;
                    return;
                }
            },
            Poll::Nothing => Heard::Nothing,
            Poll::Closed => Heard::Closed,
            Poll::Failed => Heard::Failed,
        };
        self.keep(Call::Polled {
            space: space.len(),
            heard,
        });
    }

    // Keeps an offer with its answer.
    fn keep_offer(&mut self, octets: &[u8], answer: Offer)
        ensures told { Tells self.old.told self.new.told (Offered octets.now answer ∷ []) }
        ensures rest { self.new ≡ record self.old { told = self.new.told } }
    {
        match Octets::copy_of(self.alloc, octets) {
            Ok(octets) => self.keep(Call::Offered { octets, answer }),
            Err(_) => self.tells = false,
        }
    }
}

impl Link for MemoryLink {
    ghost calls = { λ link. link.told };

    ghost faults = { λ link. link.faults };

    ghost stalls = { λ link. link.stalls };

    /// Fails where the call is listed or the poll is broken. Else it gives what is left of the
    /// oldest piece, as far as it fits, and `Closed` where nothing is left and the peer has closed.
    fn poll(&mut self, into: &mut [u8]) -> Poll
        ensures told { Tells self.old.told self.new.told
            (Polled (length into.old) (heard_of result into.new) ∷ []) }
        ensures within { IsWithin result (length into.old) }
        ensures faults { CountsWhere (poll_failed result) self.old.faults self.new.faults }
        ensures stalls { CountsWhere false self.old.stalls self.new.stalls }

        // What is heard, and what is left to be heard.
        ensures heard { heard_of result into.new ≡ heard_by self.old.steering
            (length into.old) }
        ensures steering { self.new.steering ≡ after_poll self.old.steering (length into.old) }
    {
        let answer = self.answer_poll(into);
        self.keep_poll(answer, into);
        answer
    }

    /// Fails where the call is listed, else stalls as long as it was told to, else takes the block.
    fn offer(&mut self, octets: &[u8]) -> Offer
        ensures told { Tells self.old.told self.new.told (Offered octets.now result ∷ []) }
        ensures faults { CountsWhere (offer_failed result) self.old.faults self.new.faults }
        ensures stalls { CountsWhere (offer_stalled result) self.old.stalls self.new.stalls }

        // The answer, and what the offers behind it will be answered.
        ensures answer { result ≡ answer_to_offer self.old.steering }
        ensures steering { self.new.steering ≡ after_offer self.old.steering }
    {
        let answer = self.answer_offer();
        self.keep_offer(octets, answer);
        answer
    }
}
