// Octets in any pieces, made into whole messages.
ghost use Rattle.std.specs.Prelude.{◌≡◌, ◌≢◌, ◌≤◌, ◌↔◌, ℕ, List, [], ◌++◌, take, drop, length, min};
ghost use Rattle.std.specs.Prelude.{None, Some, IsTrue, ⊤, OnOk, IfOk, IfErr, IfSome};
ghost use Rattle.std.specs.Borrow.{sem, follows_so};
ghost use mathlib.Core.Option.{none};
ghost use Rattle.isp1_tml.specs.contracts.feeder.Feeder.{the_row};
ghost use Rattle.isp1_tml.specs.Message.{Content};
ghost use Rattle.isp1_tml.specs.Stream.{IsStream};
ghost use Rattle.isp1_tml.specs.Reading.{reading};
ghost use Rattle.isp1_tml.specs.Given.{given};
ghost use Rattle.isp1_tml.specs.Feeding.{fresh, held, room_of, held_with, HasFault, StandsFor};
ghost use Rattle.isp1_tml.specs.Feeding.{next_of, after_next};

use crate::Memory;
use crate::message::{Message, front_of, message_of};
use crate::octet_queue::{CAPACITY, OctetQueue};
use crate::tml_fault::{TmlFault, further};
use std::alloc::Global;
use std::marker::Model;

/// Takes a connection's octets in any pieces, and gives its messages (CCSDS 913.1-B). Once octets
/// were refused, every call repeats the refusal, and nothing that was still held is given.
///
/// An octet is copied once on its way in and lent on its way out. Where pieces are fed only while
/// no whole message is held, it is moved at most once in between.
#[derive(Drop)]
pub struct Feeder {
    held: OctetQueue,
    // How many of the octets held stand in whole messages.
    whole: usize,
    // How many octets were given.
    place: u64,
    fault: Option<TmlFault>,
}

impl Model for Feeder {
    ghost use Rattle.isp1_tml.specs.Feeding.{Feeding, feeding_of, IsSplit};

    ghost Value = { Feeding };

    ghost view = { λ a. feeding_of a.held.waiting a.whole a.place a.fault };

    ghost invariant = { λ a. IsSplit a.held.waiting a.whole a.place };
}

// How many octets the whole messages have that `octets` begin with, or the fault of what follows
// them.
fn messages_end(octets: &[u8], place: u64) -> Result<usize, TmlFault>
    ensures within { IfOk result (λ end. end ≤ length octets.now) }
    ensures stream { IfOk result (λ end.
        IsStream place octets.now (reading place octets.now).messages (drop end octets.now) None) }
    ensures fault { IfErr result (HasFault place octets.now) }
{
    let mut end = 0;
    while let Some(size) = front_of(&octets[end..], further(place, end))? {
        end += size;
    }
    Ok(end)
}

impl Feeder {
    /// A feeder at a connection's start, with all the memory that it will ever have.
    pub fn new(alloc: Global) -> Result<Feeder, Memory>
        ensures { IfOk result (λ f. f ≡ fresh) }
    {
        let held = OctetQueue::new(alloc)?;
        Ok(Feeder {
            held,
            whole: 0,
            place: 0,
            fault: None,
        })
    }

    /// How many octets `feed` would take.
    pub fn room(&self) -> usize
        ensures room { result ≡ room_of self.now }
        ensures within { length (held self.now) ≤ CAPACITY }
    {
        CAPACITY - self.held.len()
    }

    /// Whether `next_message` would give one.
    pub fn has_message(&self) -> bool
        ensures { IsTrue result ↔ ((self.now.fault ≡ None) × (self.now.messages ≢ [])) }
    {
        self.fault.is_none() && self.whole > 0
    }

    /// Takes as much of the next piece as there is room for, and answers how many octets that is.
    pub fn feed(&mut self, piece: &[u8]) -> Result<usize, TmlFault>
        ensures taken { IfOk result (λ n. n ≡ min (length piece.now) (room_of self.old)) }
        ensures stream { OnOk result (IsStream
            self.old.place (held_with self.old piece.now) self.new.messages self.new.rest None) }
        ensures kept { OnOk result ((self.new.place ≡ self.old.place) × (self.new.fault ≡ None)) }

        // The messages given and those held are the messages of all the octets that came.
        ensures so_far { (before : List ℕ) (given : List Content) → self.old.fault ≡ None →
            StandsFor self.old before given →
            StandsFor self.new (before ++ take (room_of self.old) piece.now) given }

        // A refusal comes with the first octet that shows it, and of the piece nothing is held.
        ensures refused { self.old.fault ≡ None →
            IfErr result (HasFault self.old.place (held_with self.old piece.now)) }
        ensures err { self.old.fault ≡ None →
            IfErr result (λ fault. self.new ≡ record self.old { fault = Some fault }) }
        ensures repeated { IfSome self.old.fault (λ fault.
            (result ≡ Err fault) × (self.new ≡ self.old)) }
    {
        if let Some(fault) = self.fault {
            return Err(fault);
        }
        let before = self.held.len();
        let taken = piece.len().min(CAPACITY - before);
        self.held.put(&piece[..taken]);
        let unread = &self.held.octets()[self.whole..];
        match messages_end(unread, further(self.place, self.whole)) {
            Ok(end) => {
                self.whole += end;
                Ok(taken)
            }
            Err(fault) => {
                self.held.truncate(before);
                self.fault = Some(fault);
                Err(fault)
            }
        }
    }

    /// The next whole message, which is then given.
    pub fn next_message(&mut self) -> Result<Option<Message<'_>>, TmlFault>
        ensures given { given result ≡ next_of self.old }
        ensures* after { sem 𝓛 (follows_so the_row the_row self.entry.ghost_name none (λ _ _. ⊤)
            (λ new. new ≡ after_next self.old)) }
    {
        if let Some(refusal) = self.fault {
            return Err(refusal);
        }
        let Some(size) = front_of(self.held.octets(), self.place)? else {
            return Ok(None);
        };
        self.held.skip(size);
        self.whole -= size;
        self.place = further(self.place, size);
        Ok(Some(message_of(self.held.last_given(size))))
    }
}
