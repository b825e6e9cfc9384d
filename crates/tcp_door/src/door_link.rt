// A link that a door gave.
ghost use Rattle.std.specs.Prelude.{[], ◌∷◌, ◌≡◌};
ghost use Rattle.link_model.specs.declared.call.Call.TheVariants.{Offered};
ghost use Rattle.link_model.specs.Calls.{Tells};
ghost use Rattle.link_model.specs.Counts.{CountsWhere, offer_failed, offer_stalled};

use crate::doorway::Keep;
use crate::hearing::Hearing;
use crate::teller::Teller;
use bell::Bells;
use link_model::{Link, Poll};
use octet_core::{Faults, Offer};
use operator_side::Stop;
use std::marker::Model;
use std::time::Duration;
use tcp_link::TcpLink;

/// A link that a door gave, over a TCP stream. It tells none of its calls.
///
/// Once the station is to stop, or its user was silent for too long, its polls hear that the peer has
/// closed, though it hasn't, and an offer that would stall fails: so whoever serves the link comes to
/// an end.
#[derive(Drop)]
pub struct DoorLink {
    link: TcpLink,
    stop: Option<Stop>,
    bells: Option<Bells>,
    hearing: Hearing,
    // What tells the board of it.
    teller: Option<Teller>,
    // True from a poll that heard octets until one that heard nothing: then all of them are handled.
    is_asked: bool,
    faults: Faults,
    stalls: u64,
}

/// Why a link came to an end, where that wasn't its serving's matter.
#[derive(Clone, Copy, Debug, PartialEq, Eq)]
pub(crate) enum Reason {
    /// It was.
    None,
    /// The station is to stop.
    Stop,
    /// Nothing was heard for so long.
    Silence(Duration),
}

impl Model for DoorLink {
    ghost use Rattle.tcp_door.specs.DoorState.{DoorLinkState};

    ghost Value = { DoorLinkState };

    ghost view = { λ link. record { faults = link.faults; stalls = link.stalls } };
}

impl DoorLink {
    // A link over this one, which ends at this stop, rings these bells, hears so, and is told of so.
    pub(crate) fn new(
        link: TcpLink,
        stop: Option<Stop>,
        bells: Option<Bells>,
        hearing: Hearing,
        teller: Option<Teller>,
    ) -> DoorLink
        ensures { result ≡ record { faults = 0; stalls = 0 } }
    {
        DoorLink {
            link,
            stop,
            bells,
            hearing,
            teller,
            is_asked: false,
            faults: Faults::new(),
            stalls: 0,
        }
    }

    // Whether the station is to stop.
    fn is_stopped(&self) -> bool {
        self.stop.as_ref().is_some_and(Stop::is_asked)
    }

    // Why it came to an end.
    pub(crate) fn reason(&self) -> Reason {
        match self.hearing.passed() {
            Some(limit) => Reason::Silence(limit),
            None if self.is_stopped() => Reason::Stop,
            None => Reason::None,
        }
    }

    // Sends what is left, closes the stream, and returns what the door keeps.
    pub(crate) fn finish(self) -> Keep {
        let DoorLink {
            mut link,
            stop,
            bells,
            teller,
            ..
        } = self;
        link.finish();
        Keep {
            gear: link.into_gear(),
            stop,
            bells,
            teller,
        }
    }

    // Has the board told of a poll that heard these octets.
    fn tell_heard(&mut self, octets: &[u8])
        ensures { self.new ≡ self.old }
    {
        if let Some(teller) = &mut self.teller {
            teller.heard(octets);
        }
    }

    // Has the board told that a poll failed.
    fn tell_poll_failed(&self) {
        if let Some(teller) = &self.teller {
            teller.poll_failed();
        }
    }

    // Has the board told of an offer of so many octets.
    fn tell_offered(&self, count: usize, answer: Offer) {
        if let Some(teller) = &self.teller {
            teller.offered(count, answer);
        }
    }

    // Rings if a block answers what the user sent: that may have been a CLTU, and the book has it by
    // now.
    fn ring_asked(&self) {
        match &self.bells {
            Some(bells) if self.is_asked => bells.ring_asked(),
            _ => {}
        }
    }

    // Offers a block to the stream, and rings or counts by the answer.
    fn offer_on(&mut self, octets: &[u8]) -> Offer
        ensures faults { CountsWhere (offer_failed result) self.old.faults self.new.faults }
        ensures stalls { CountsWhere (offer_stalled result) self.old.stalls self.new.stalls }
    {
        match self.link.offer(octets) {
            Offer::Whole => {
                self.ring_asked();
                Offer::Whole
            }
            Offer::Stalled if !self.is_stopped() && !self.hearing.is_over() => {
                self.stalls = self.stalls.saturating_add(1);
                Offer::Stalled
            }
            _ => {
                let _ = self.faults.fail::<()>();
                Offer::Failed
            }
        }
    }

    /// How often a call has failed.
    pub fn faults(&self) -> u64
        ensures { result ≡ self.now.faults }
    {
        self.faults.count()
    }

    /// How often an offer has stalled.
    pub fn stalls(&self) -> u64
        ensures { result ≡ self.now.stalls }
    {
        self.stalls
    }
}

impl Link for DoorLink {
    ghost use Rattle.std.specs.Prelude.{None};

    ghost calls = { λ link. None };

    ghost faults = { λ link. link.faults };

    ghost stalls = { λ link. link.stalls };

    fn poll(&mut self, into: &mut [u8]) -> Poll {
        if self.is_stopped() || self.hearing.is_over() {
            return Poll::Closed;
        }
        let answer = self.link.poll(into);
        match answer {
            Poll::Arrived(count) => {
                self.is_asked = true;
                let octets = into.get(..count).unwrap_or(&[]);
                self.hearing.hear(octets);
                self.tell_heard(octets);
            }
            Poll::Nothing => {
                self.is_asked = false;
                if self.hearing.look() {
                    return Poll::Closed;
                }
            }
            Poll::Closed => {}
            Poll::Failed => {
                let _ = self.faults.fail::<()>();
                self.tell_poll_failed();
            }
        }
        answer
    }

    fn offer(&mut self, octets: &[u8]) -> Offer
        ensures told { Tells None None (Offered octets.now result ∷ []) }
        ensures faults { CountsWhere (offer_failed result) self.old.faults self.new.faults }
        ensures stalls { CountsWhere (offer_stalled result) self.old.stalls self.new.stalls }
    {
        let answer = self.offer_on(octets);
        self.tell_offered(octets.len(), answer);
        answer
    }
}
