// A door in memory.
ghost use Rattle.std.specs.Prelude.{◌≡◌, ◌↔◌, ◌++◌, ◌∷◌, [], None, Some, true, false, IsTrue};
ghost use Rattle.std.specs.Prelude.{IsErr, OnOk, OnErr, IfOk, IfSome};
ghost use Rattle.octet_core.specs.Fault.{FailsOnlyByFault};
ghost use Rattle.octet_core.specs.FailingCalls.{fails_next, after_call};
ghost use Rattle.door_model.specs.Shown.{Shows, answer_of, answered, given_back, out_after};
ghost use Rattle.door_model.specs.Shown.{IsFresh};
ghost use Rattle.door_model.specs.MemoryDoor.{shown_by, GivesFirst};

use crate::{Answer, Door, Returned, Served};
use link_model::Link;
use octet_core::{Failed, FailingCalls, Faults, Memory};
use std::alloc::Global;
use std::collections::VecDeque;
use std::marker::Model;

/// A door in memory, which gives the links that came and keeps those that are given back.
#[derive(Drop)]
pub struct MemoryDoor<L: Link> {
    waiting: VecDeque<L>,
    // It has space for the links that wait and the one that is out.
    back: Vec<Returned<L>>,
    last: Option<Answer>,
    is_out: bool,
    failing: FailingCalls,
    faults: Faults,
}

impl<L: Link> Model for MemoryDoor<L> {
    ghost use Rattle.std.specs.Prelude.{◌+◌, ◌≤◌, length, if◌then◌else◌, vec_len, vec_capacity};
    ghost use Rattle.std.specs.List.{All};
    ghost use Rattle.door_model.specs.Shown.{IsFresh};
    ghost use Rattle.door_model.specs.MemoryDoor.{DoorState};

    ghost Value = { DoorState L };

    ghost view = { λ door. record {
      waiting = door.waiting.items;
      back = door.back.items;
      last = door.last;
      is_out = door.is_out;
      failing = door.failing;
      faults = door.faults;
    } };

    ghost invariant = { λ door.
        (length door.waiting.items + (if door.is_out then 1 else 0) + vec_len door.back
        ≤ vec_capacity door.back)
        × All (λ link. IsFresh (L.calls link)) door.waiting.items };
}

impl<L: Link> MemoryDoor<L> {
    /// A door to which no link came yet, and whose calls of this list fail, those for a next link
    /// counted from 1.
    pub fn new(alloc: Global, failing_calls: Vec<u64>) -> MemoryDoor<L>
        ensures { result ≡ record {
          waiting = [];
          back = [];
          last = None;
          is_out = false;
          failing = record { failing = failing_calls.items; made = 0 };
          faults = 0;
        } }
    {
        MemoryDoor {
            waiting: VecDeque::new(alloc),
            back: Vec::new(alloc),
            last: None,
            is_out: false,
            failing: FailingCalls::new(failing_calls),
            faults: Faults::new(),
        }
    }

    /// A link comes, of which no call was made yet.
    pub fn arrive(&mut self, link: L) -> Result<(), Memory>
        requires { IsFresh (L.calls link) }
        ensures ok { OnOk result (self.new ≡ record self.old {
          waiting = self.old.waiting ++ link ∷ [];
        }) }
        ensures err { OnErr result (self.new ≡ self.old) }
    {
        self.back.reserve(self.waiting.len() + 2)?;
        self.waiting.push_back(link)?;
        Ok(())
    }

    /// What it answered last, if it was asked.
    pub fn last(&self) -> Option<Answer>
        ensures { result ≡ self.now.last }
    {
        self.last
    }

    /// The links that were given back, the oldest first.
    pub fn back(&self) -> &[Returned<L>]
        ensures { result.now ≡ self.now.back }
    {
        &self.back
    }

    /// How often a call has failed.
    pub fn faults(&self) -> u64
        ensures { result ≡ self.now.faults }
    {
        self.faults.count()
    }
}

impl<L: Link> Door for MemoryDoor<L> {
    ghost use Rattle.door_model.specs.MemoryDoor.{shown_by};

    type Link = L;

    ghost shown = { λ door. shown_by L.calls door };

    ghost is_out = { λ door. door.is_out };

    ghost faults = { λ door. door.faults };

    /// Fails where the call is listed, else gives the link that came first.
    fn next_link(&mut self) -> Result<Option<L>, Failed>
        ensures shown { Shows (shown_by L.calls self.old) (shown_by L.calls self.new)
            (answered (answer_of result)) }
        ensures fresh { IfOk result (λ given. IfSome given (λ link. IsFresh (L.calls link))) }
        ensures out { self.new.is_out ≡ out_after (answer_of result) self.old.is_out }
        ensures faults { FailsOnlyByFault self.old.faults self.new.faults result }

        // The answer, and what waits behind it.
        ensures fails { IsErr result ↔ IsTrue (fails_next self.old.failing) }
        ensures given { IfOk result (λ given. GivesFirst self.old.waiting given self.new.waiting) }
        ensures kept { OnErr result (self.new.waiting ≡ self.old.waiting) }
        ensures rest { self.new ≡ record self.old {
          waiting = self.new.waiting;
          last = Some (answer_of result);
          is_out = self.new.is_out;
          failing = after_call self.old.failing;
          faults = self.new.faults;
        } }
    {
        if self.failing.count_call() {
            self.last = Some(Answer::Failed);
            return self.faults.fail();
        }
        let Some(link) = self.waiting.pop_front() else {
            self.last = Some(Answer::NoMore);
            return Ok(None);
        };
        self.last = Some(Answer::Link);
        self.is_out = true;
        Ok(Some(link))
    }

    /// Keeps the link behind those that were given back before.
    fn give_back(&mut self, link: L, served: Served)
        requires { self.old.is_out ≡ true }
        ensures shown { Shows (shown_by L.calls self.old) (shown_by L.calls self.new)
            (given_back (record { calls = L.calls link; served = served })) }
        ensures out { self.new.is_out ≡ false }
        ensures faults { self.new.faults ≡ self.old.faults }

        // The link itself is kept.
        ensures kept { self.new ≡ record self.old {
          back = self.old.back ++ (record { link = link; served = served }) ∷ [];
          is_out = false;
        } }
    {
        self.is_out = false;
        let _ = self.back.push(Returned { link, served });
    }
}
