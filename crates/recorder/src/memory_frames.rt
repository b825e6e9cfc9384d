// A source of entries in memory.
ghost use Rattle.std.specs.Prelude.{◌≡◌, ◌∷◌, [], true, IsTrue, OnOk, OnErr, option_copied};
ghost use Rattle.octet_core.specs.Told.{Tells, CountsWhere};
ghost use Rattle.archive_terms.specs.Archive.{is_valid};
ghost use Rattle.record_form.specs.Entry.{entry_of};
ghost use Rattle.recorder.specs.Feeds.{answer_of, IsValidFeed, is_failed};
ghost use Rattle.recorder.specs.MemoryFrames.{answers_of, answer_by, before_any, after_next};
ghost use Rattle.recorder.specs.MemoryFrames.{with_entry};

use crate::{Feed, FrameSource};
use octet_core::{FailingCalls, Faults, Memory};
use record_form::Entry;
use std::alloc::Global;
use std::collections::VecDeque;
use std::marker::Model;

/// A source in memory, which gives the entries that came, and fails at the calls of a list.
///
/// It tells its answers, whose entries share their octets with those that were given. Where memory
/// is refused to them, it stops telling, and answers as before.
#[derive(Debug, Drop)]
pub struct MemoryFrames {
    waiting: VecDeque<Entry>,
    is_ended: bool,
    failing: FailingCalls,
    told: Vec<Feed>,
    tells: bool,
    faults: Faults,
}

impl Model for MemoryFrames {
    ghost use Rattle.recorder.specs.MemoryFrames.{FramesState, told_of, AreValid};

    ghost Value = { FramesState };

    ghost view = { λ frames. record {
      waiting = frames.waiting.items;
      is_ended = frames.is_ended;
      failing = frames.failing;
      told = told_of frames.tells frames.told.items;
      faults = frames.faults;
    } };

    ghost invariant = { λ frames. AreValid frames.waiting.items };
}

impl MemoryFrames {
    /// A source to which no entry came yet, and whose calls of this list fail, counted from 1.
    pub fn new(alloc: Global, failing_calls: Vec<u64>) -> MemoryFrames
        ensures { result ≡ before_any failing_calls.items }
    {
        MemoryFrames {
            waiting: VecDeque::new(alloc),
            is_ended: false,
            failing: FailingCalls::new(failing_calls),
            told: Vec::new(alloc),
            tells: true,
            faults: Faults::new(),
        }
    }

    /// An entry comes.
    pub fn arrive(&mut self, entry: Entry) -> Result<(), Memory>
        requires { IsTrue (is_valid (entry_of entry)) }
        ensures ok { OnOk result (self.new ≡ with_entry self.old entry) }
        ensures err { OnErr result (self.new ≡ self.old) }
    {
        self.waiting.push_back(entry)?;
        Ok(())
    }

    /// None comes any more behind those that came.
    pub fn end(&mut self)
        ensures { self.new ≡ record self.old { is_ended = true } }
    {
        self.is_ended = true;
    }

    /// The answers so far, or none once memory was refused to them.
    pub fn told(&self) -> Option<&[Feed]>
        ensures { option_copied result ≡ self.now.told }
    {
        if self.tells { Some(&self.told) } else { None }
    }

    /// How often a call has failed.
    pub fn faults(&self) -> u64
        ensures { result ≡ self.now.faults }
    {
        self.faults.count()
    }

    // Keeps an answer, and hands it back.
    #[tactic(auto, using(std::proofs::lemmas::List::map_push))]
    fn keep(&mut self, answer: Feed) -> Feed
        ensures same { result ≡ answer }
        ensures told { Tells (answers_of self.old) (answers_of self.new) (answer_of answer ∷ []) }
        ensures rest { self.new ≡ record self.old { told = self.new.told } }
    {
        match answer.clone() {
            Ok(copy) => self.tells &= self.told.push(copy).is_ok(),
            Err(_) => self.tells = false,
        }
        answer
    }
}

impl FrameSource for MemoryFrames {
    ghost answers = { λ frames. answers_of frames };

    ghost faults = { λ frames. frames.faults };

    /// Fails where the call is listed, else gives the entry that came first, and `End` where none
    /// is left and none comes any more.
    fn next(&mut self) -> Feed
        ensures told { Tells (answers_of self.old) (answers_of self.new) (answer_of result ∷ []) }
        ensures valid { IsValidFeed result }
        ensures faults { CountsWhere (is_failed result) self.old.faults self.new.faults }

        // The answer, and what the calls behind it will be answered.
        ensures answer { result ≡ answer_by self.old }
        ensures rest { self.new ≡ after_next self.old self.new.told self.new.faults }
    {
        if self.failing.count_call() {
            let _ = self.faults.fail::<()>();
            return self.keep(Feed::Failed);
        }
        match self.waiting.pop_front() {
            Some(entry) => self.keep(Feed::Entry(entry)),
            None if self.is_ended => self.keep(Feed::End),
            None => self.keep(Feed::NotYet),
        }
    }
}
