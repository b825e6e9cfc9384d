// What is to be offered.
ghost use Rattle.std.specs.Prelude.{◌≡◌, OnOk};
ghost use Rattle.link_model.specs.Calls.{Tells};
ghost use Rattle.link_model.specs.Counts.{CountsWhere, offer_failed};
ghost use Rattle.user_talk.specs.Outbox.{no_block, waits, settled, put_in, offered_once, left_once};
ghost use Rattle.user_talk.specs.Outbox.{offered, left_by, any_failed};

use link_model::Link;
use octet_core::Offer;
use std::alloc::{AllocError, Global};
use std::marker::Model;
use std::mem;

/// What a link answered to the offers of a turn. Where nothing was offered it is as good as whole.
#[derive(Clone, Copy, Debug, PartialEq, Eq)]
pub struct Answers {
    /// To the block that waited, or that was said in the turn.
    pub first: Offer,
    /// To what waited behind it.
    pub second: Offer,
}

impl Answers {
    // Whether one of the offers failed.
    pub(crate) fn any_failed(self) -> bool
        ensures { result ≡ any_failed self }
    {
        has_failed(self.first) || has_failed(self.second)
    }
}

fn has_failed(answer: Offer) -> bool
    ensures { result ≡ offer_failed answer }
{
    matches!(answer, Offer::Failed)
}

// The block that is offered until the link takes it, and what waits behind it.
#[derive(Drop)]
pub(crate) struct Outbox {
    block: Vec<u8>,
    behind: Vec<u8>,
}

impl Model for Outbox {
    ghost use Rattle.user_talk.specs.Outbox.{OutboxState};

    ghost Value = { OutboxState };

    ghost view = { λ o. record { block = o.block.items; behind = o.behind.items } };
}

impl Outbox {
    pub(crate) fn new(alloc: Global) -> Outbox
        ensures { result ≡ no_block }
    {
        Outbox {
            block: Vec::new(alloc),
            behind: Vec::new(alloc),
        }
    }

    // Whether a block waits.
    pub(crate) fn waits(&self) -> bool
        ensures { result ≡ waits self.now }
    {
        !self.block.is_empty()
    }

    // Puts octets behind all others.
    pub(crate) fn put(&mut self, octets: &[u8]) -> Result<(), AllocError>
        ensures { OnOk result (self.new ≡ put_in self.old octets.now) }
    {
        self.behind.extend_from_slice(octets)?;
        self.settle();
        Ok(())
    }

    // Where no block waits, what is behind is the next one.
    fn settle(&mut self)
        ensures { self.new ≡ settled self.old.block self.old.behind }
    {
        if self.block.is_empty() {
            mem::swap(&mut self.block, &mut self.behind);
        }
    }

    // Offers the block, where there is one.
    fn offer_once<L: Link>(&mut self, link: &mut L) -> Offer
        ensures told { Tells (L.calls link.old) (L.calls link.new)
            (offered_once self.old.block result) }
        ensures left { self.new ≡ left_once self.old result }
        ensures faults { CountsWhere (offer_failed result) (L.faults link.old)
            (L.faults link.new) }
    {
        match offer_block(self.block.as_slice(), link) {
            Offer::Whole => {
                self.block.clear();
                self.settle();
                Offer::Whole
            }
            answer => answer,
        }
    }

    // Offers the block, and once it is taken, what waited behind it.
    pub(crate) fn offer<L: Link>(&mut self, link: &mut L) -> Answers
        ensures told { Tells (L.calls link.old) (L.calls link.new) (offered self.old result) }
        ensures left { self.new ≡ left_by self.old result }
        ensures faults { CountsWhere (any_failed result) (L.faults link.old) (L.faults link.new) }
    {
        match self.offer_once(link) {
            Offer::Whole => Answers {
                first: Offer::Whole,
                second: self.offer_once(link),
            },
            first => Answers {
                first,
                second: Offer::Whole,
            },
        }
    }
}

// Offers a block that isn't empty.
#[tactic(auto, using(crate::proofs::Told::tells_none))]
fn offer_block<L: Link>(block: &[u8], link: &mut L) -> Offer
    ensures told { Tells (L.calls link.old) (L.calls link.new) (offered_once block.now result) }
    ensures faults { CountsWhere (offer_failed result) (L.faults link.old) (L.faults link.new) }
{
    if block.is_empty() {
        return Offer::Whole;
    }
    link.offer(block)
}
