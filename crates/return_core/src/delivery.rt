// The delivery.
ghost use Rattle.std.specs.Prelude.{◌≡◌, ℕ, ◌<◌, ◌≤◌, List, [], ◌∷◌, ◌++◌, length, None, IsTrue};
ghost use Rattle.std.specs.Prelude.{IsNone, IsSome, unwrap_or, IfOk, is_none};
ghost use Rattle.archive_terms.specs.Archive.{Entry, IsArchive};
ghost use Rattle.archive_terms.specs.Delivery.{is_online, Terms};
ghost use Rattle.frame_select.specs.Selection.{selection_of};
ghost use Rattle.frame_select.specs.Want.{want_of};
ghost use Rattle.frame_select.specs.Glimpse.{glimpse_of};
ghost use Rattle.frame_select.specs.Item as select;
ghost use Rattle.return_core.specs.Mode.{mode_of, answer_of};
ghost use Rattle.return_core.specs.Item.{are_of_archive};
ghost use Rattle.archive_terms.specs.Rounds.{whole, stall, Round};
ghost use Rattle.return_core.specs.Standing.{waiting_round, StandsFor, IsNextLook, Steps, Settles};
ghost use Rattle.return_core.specs.Course.{stopped, terms_of, with_start, without_start};
ghost use Rattle.return_core.specs.Course.{limit_of_course, want_of_course, is_filling};
ghost use Rattle.return_core.specs.Course.{is_offering, with_step, with_answer, held_of};
ghost use Rattle.return_core.specs.Visits.{fate_by, discard_told};

use crate::held_items::HeldItems;
use archive_terms::laws::places_are_counts;
use frame_select::{Glimpse, Item, Selection, Want};
use octet_core::Offer;
use sle_numbers::ReturnDeliveryMode;
use std::alloc::Global;
use std::marker::Model;
use transfer_buffer::Memory;

/// The delivery of a return service instance: what its START selects goes out in transfer buffers.
#[derive(Drop)]
pub struct Delivery {
    mode: ReturnDeliveryMode,
    latency: Option<u128>,
    // None where no START runs.
    selection: Option<Selection>,
    held: HeldItems,
    // The place of the last frame that was handed over.
    last: Option<u64>,
    // Whether a discard is to be told.
    owed: bool,
    // Whether the held items are due, and stay as they are until they are taken or discarded.
    fixed: bool,
    // Whether end of data was handed over.
    ended: bool,
}

impl Model for Delivery {
    ghost use Rattle.std.specs.Option.{option_map};
    ghost use Rattle.frame_select.specs.Selection.{selection_of};
    ghost use Rattle.return_core.specs.Mode.{mode_of};
    ghost use Rattle.return_core.specs.Course.{Course, course_of, IsSound};

    ghost Value = { Course };

    ghost view = { λ d.
        course_of (mode_of d.mode) d.latency (option_map selection_of d.selection) d.held d.last
        d.owed d.fixed d.ended };

    ghost invariant = { λ d. IsSound (mode_of d.mode) d.latency d.held d.last };
}

impl Delivery {
    /// A delivery of buffers of at most `size` items, whose first item waits at most `latency`
    /// picoseconds in the online modes. No START runs.
    pub fn new(
        alloc: Global,
        mode: ReturnDeliveryMode,
        size: u32,
        latency: Option<u128>,
    ) -> Result<Delivery, Memory>
        requires some { 0 < size }
        requires limited { IsTrue (is_online (mode_of mode)) → IsSome latency }
        ensures { IfOk result (λ delivery. delivery
            ≡ stopped (mode_of mode) size (unwrap_or latency 0)) }
    {
        let held = HeldItems::new(alloc, size)?;
        Ok(Delivery {
            mode,
            latency,
            selection: None,
            held,
            last: None,
            owed: false,
            fixed: false,
            ended: false,
        })
    }

    /// Whether no START runs.
    pub fn is_stopped(&self) -> bool
        ensures { result ≡ is_none self.now.run }
    {
        self.selection.is_none()
    }

    /// Begins a START.
    pub fn start(&mut self, selection: Selection)
        requires { IsNone self.old.run }
        ensures after { self.new ≡ with_start self.old (selection_of selection) }
        ensures stands { (entries : List Entry) → IsArchive entries
            → selection.first ≤ length entries
            → StandsFor self.new (terms_of self.old (selection_of selection)) entries [] }
    {
        self.held.restart(selection.first);
        self.selection = Some(selection);
        self.last = None;
        self.owed = false;
        self.fixed = false;
        self.ended = false;
    }

    /// Ends the START. What is held is dropped.
    pub fn stop(&mut self)
        ensures { self.new ≡ without_start self.old }
    {
        self.held.restart(0);
        self.selection = None;
        self.last = None;
    }

    /// What it wants of the next look at the archive.
    pub fn want(&self) -> Want
        ensures { want_of result ≡ want_of_course self.now }
    {
        let Some(selection) = self.selection else {
            return Want::Nothing;
        };
        if self.fixed || self.ended {
            return Want::Nothing;
        }
        let backlogs = u32::from(self.owed && self.held.is_empty());
        Want::Items {
            selection,
            place: self.held.place(),
            since: self.held.frame(),
            room: self.held.room() - backlogs,
            octets: self.held.octets_left(),
        }
    }

    /// Takes what the look gave at `now`, and says whether a buffer is to be offered.
    pub fn step(&mut self, glimpse: Glimpse, now: u128) -> bool
        requires { IsTrue (are_of_archive glimpse.items) }
        ensures after { self.new ≡ with_step self.old (glimpse_of glimpse) now }
        ensures offers { result ≡ is_offering self.new }
        ensures stands { (t : Terms) (entries : List Entry) (rounds : List Round)
            → StandsFor self.old t entries rounds
            → IsNextLook (glimpse_of glimpse) self.old t entries rounds
            → Steps self.new t entries rounds glimpse.front now }
    {
        places_are_counts();
        self.advance(glimpse, now);
        self.is_offering()
    }

    // A step.
    fn advance(&mut self, glimpse: Glimpse, now: u128)
        requires { IsTrue (are_of_archive glimpse.items) }
        ensures { self.new ≡ with_step self.old (glimpse_of glimpse) now }
    {
        if self.is_filling() {
            self.fill(glimpse, now);
        }
    }

    // Whether it takes items.
    fn is_filling(&self) -> bool
        ensures { result ≡ is_filling self.now }
    {
        self.selection.is_some() && !(self.fixed || self.ended)
    }

    /// Whether a buffer is to be offered.
    pub fn is_offering(&self) -> bool
        ensures { result ≡ is_offering self.now }
    {
        self.selection.is_some() && self.fixed
    }

    // Fills the buffer, and fixes it where it is due.
    fn fill(&mut self, glimpse: Glimpse, now: u128)
        requires filling { IsTrue (is_filling self.old) }
        requires small { IsTrue (are_of_archive glimpse.items) }
        ensures { self.new ≡ with_step self.old (glimpse_of glimpse) now }
    {
        let limit = self.limit();
        let is_last = self.held.fill(self.owed, glimpse, now);
        self.fixed = self.held.due(now, limit, is_last);
    }

    // The latency limit, in the online modes.
    fn limit(&self) -> Option<u128>
        ensures { result ≡ limit_of_course self.now }
    {
        match self.mode {
            ReturnDeliveryMode::TimelyOnline | ReturnDeliveryMode::CompleteOnline => self.latency,
            ReturnDeliveryMode::Offline => None,
        }
    }

    /// The held items, which are offered where a buffer is to be.
    pub fn current(&self) -> &[Item]
        ensures { select.items_of result.now ≡ held_of self.now }
    {
        match self.selection {
            Some(_) => self.held.items(),
            None => &[],
        }
    }

    /// How many items the link's answer discards, a backlog not counted, where it discards the
    /// buffer that is offered: a timely delivery does that with picked entries that stalled. It
    /// costs the held items, and is asked before `settle`.
    pub fn discards(&self, answer: Offer) -> Option<u32>
        ensures { result ≡ discard_told (fate_by self.now (answer_of answer)) }
    {
        match answer {
            Offer::Stalled if self.is_offering() => self.stall_discards(),
            _ => None,
        }
    }

    // How many items a stall discards of the buffer that is offered.
    fn stall_discards(&self) -> Option<u32>
        requires { IsTrue (is_offering self.now) }
        ensures { result ≡ discard_told (fate_by self.now stall) }
    {
        if self.mode == ReturnDeliveryMode::TimelyOnline && self.held.has_archived() {
            Some(self.held.items_told())
        } else {
            None
        }
    }

    /// Takes the link's answer to the buffer that was offered. Where none is to be offered it does
    /// nothing.
    pub fn settle(&mut self, answer: Offer)
        ensures after { self.new ≡ with_answer self.old (answer_of answer) }
        ensures stands { (t : Terms) (entries : List Entry) (rounds : List Round) (front now : ℕ)
            → StandsFor self.old t entries (rounds ++ waiting_round front now ∷ [])
            → Settles self.old self.new t entries rounds front now (answer_of answer) }
    {
        places_are_counts();
        self.take(answer);
    }

    // An answer.
    fn take(&mut self, answer: Offer)
        ensures { self.new ≡ with_answer self.old (answer_of answer) }
    {
        if !self.is_offering() {
            return;
        }
        match answer {
            Offer::Whole => self.hand_over(),
            Offer::Stalled => self.stall(),
            Offer::Failed => {}
        }
    }

    // The held items were taken.
    fn hand_over(&mut self)
        requires { IsTrue (is_offering self.old) }
        ensures { self.new ≡ with_answer self.old whole }
    {
        self.last = self.held.frame();
        self.owed = self.owed && !self.held.has_backlog();
        self.ended = self.held.has_end_of_data();
        self.held.release(self.last);
        self.fixed = false;
    }

    // The link took nothing: a timely delivery discards what it holds of the archive.
    fn stall(&mut self)
        requires { IsTrue (is_offering self.old) }
        ensures { self.new ≡ with_answer self.old stall }
    {
        if self.mode == ReturnDeliveryMode::TimelyOnline && self.held.has_archived() {
            self.held.release(self.last);
            self.owed = true;
            self.fixed = false;
        }
    }
}
