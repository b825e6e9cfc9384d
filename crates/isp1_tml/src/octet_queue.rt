// The octets that a feeder holds.
ghost use Rattle.std.specs.Prelude.{◌≡◌, ◌+◌, ◌-◌, ◌≤◌, ◌++◌, [], take, drop, length, vec_len};
ghost use Rattle.std.specs.Prelude.{vec_capacity, IfOk};

use crate::Memory;
use crate::message::{HEADER, LONGEST_PDU};
use std::alloc::Global;
use std::marker::Model;

/// The most octets that are held: those of the longest message.
pub const CAPACITY: usize = HEADER + LONGEST_PDU as usize;

// A queue of octets in memory that is reserved once. Octets that were given stay behind it until
// others need their place, so that they can be lent.
#[derive(Drop)]
pub(crate) struct OctetQueue {
    octets: Vec<u8>,
    start: usize,
}

impl Model for OctetQueue {
    ghost use Rattle.std.specs.Prelude.{◌≤◌, take, drop, vec_len, vec_capacity};
    ghost use Rattle.isp1_tml.specs.OctetQueue.{Queue};
    ghost use Rattle.isp1_tml.specs.declared.octet_queue.TheConstants.{CAPACITY};

    ghost Value = { Queue };

    ghost view = { λ a. record {
      given = take a.start a.octets.items;
      waiting = drop a.start a.octets.items;
    } };

    ghost invariant = { λ a. (a.start ≤ vec_len a.octets)
        × (vec_len a.octets ≤ CAPACITY) × (CAPACITY ≤ vec_capacity a.octets) };
}

// Drops the first `start` octets, and moves the others to the front.
fn move_to_front(octets: &mut Vec<u8>, start: usize)
    requires { start ≤ vec_len octets.old }
    ensures items { octets.new.items ≡ drop start octets.old.items }
    ensures len { vec_len octets.new ≡ vec_len octets.old - start }
    ensures capacity { vec_capacity octets.new ≡ vec_capacity octets.old }
{
    let count = octets.len() - start;
    octets.copy_within(start.., 0);
    octets.truncate(count);
}

impl OctetQueue {
    pub fn new(alloc: Global) -> Result<OctetQueue, Memory>
        ensures { IfOk result (λ h. h.waiting ≡ []) }
    {
        let octets = Vec::with_capacity(alloc, CAPACITY)?;
        Ok(OctetQueue { octets, start: 0 })
    }

    pub fn len(&self) -> usize
        ensures exact { result ≡ length self.now.waiting }
        ensures within { length self.now.waiting ≤ CAPACITY }
    {
        self.octets.len() - self.start
    }

    pub fn octets(&self) -> &[u8]
        ensures { result.now ≡ self.now.waiting }
    {
        &self.octets[self.start..]
    }

    // Appends a piece. What waits is moved to the front where that costs no more than was given, or
    // where the space behind it is too small.
    pub fn put(&mut self, piece: &[u8])
        requires { length self.old.waiting + length piece.now ≤ CAPACITY }
        ensures { self.new.waiting ≡ self.old.waiting ++ piece.now }
    {
        let waiting = self.octets.len() - self.start;
        if waiting <= self.start || self.octets.len() + piece.len() > CAPACITY {
            move_to_front(&mut self.octets, self.start);
            self.start = 0;
        }
        self.octets.extend_from_slice(piece).unwrap();
    }

    // Drops what waits behind the first `count` octets.
    pub fn truncate(&mut self, count: usize)
        requires { count ≤ length self.old.waiting }
        ensures { self.new.waiting ≡ take count self.old.waiting }
    {
        self.octets.truncate(self.start + count);
    }

    // Gives the first `count` octets.
    pub fn skip(&mut self, count: usize)
        requires { count ≤ length self.old.waiting }
        ensures given { self.new.given ≡ self.old.given ++ take count self.old.waiting }
        ensures waiting { self.new.waiting ≡ drop count self.old.waiting }
    {
        self.start += count;
    }

    // The octets that were given last.
    pub fn last_given(&self, count: usize) -> &[u8]
        requires { count ≤ length self.now.given }
        ensures { result.now ≡ drop (length self.now.given - count) self.now.given }
    {
        &self.octets[self.start - count..self.start]
    }
}
