// The items that are held for the next message.
ghost use Rattle.std.specs.Prelude.{◌≡◌, ◌-◌, ◌≤◌, ◌<◌, ◌==◌, None, [], ◌∷◌, length, IsTrue, IfOk};
ghost use Rattle.std.specs.Prelude.{if◌then◌else◌};
ghost use Rattle.std.specs.List.{sum_by, list_any};
ghost use Rattle.archive_terms.specs.Delivery.{is_due_of, contents, is_archived, is_backlog};
ghost use Rattle.archive_terms.specs.Delivery.{is_end_of_data, frame_octets};
ghost use Rattle.archive_terms.specs.Placed.{items_of};
ghost use Rattle.archive_terms.specs.declared.limits.TheConstants.{FULL_BUFFER};
ghost use Rattle.frame_select.specs.Item as select;
ghost use Rattle.frame_select.specs.Glimpse.{glimpse_of};
ghost use Rattle.return_core.specs.Item.{is_of_archive, are_of_archive};
ghost use Rattle.return_core.specs.Holding.{empty_holding, takes_more, with_put, fitting};
ghost use Rattle.return_core.specs.Holding.{filled_with, headed, ended_with, is_last_of, filled_at};
ghost use Rattle.return_core.specs.Holding.{without_held};
ghost use Rattle.return_core.specs.Visits.{items_told};

use crate::parts;
use archive_terms::FULL_BUFFER;
use archive_terms::laws::buffer_takes_what_fits;
use frame_select::{Glimpse, Item, Items};
use std::alloc::Global;
use std::marker::Model;
use transfer_buffer::{Buffer, Memory};

/// The items that are held for the next message, in order, and where the next one stands.
#[derive(Drop)]
pub struct HeldItems {
    buffer: Buffer<Item>,
    // The place behind the last picked entry that was put.
    place: u64,
    // The place of the last frame that was put.
    frame: Option<u64>,
}

impl Model for HeldItems {
    ghost use Rattle.return_core.specs.Holding.{Holding, holding_of, IsCounted};

    ghost Value = { Holding };

    ghost view = { λ h. holding_of h.buffer h.place h.frame };

    ghost invariant = { λ h. IsCounted h.buffer };
}

impl HeldItems {
    /// Nothing is held; there is room for so many items.
    pub fn new(alloc: Global, size: u32) -> Result<HeldItems, Memory>
        ensures { IfOk result (λ held. held ≡ empty_holding size 0) }
    {
        let buffer = Buffer::new(alloc, size)?;
        Ok(HeldItems {
            buffer,
            place: 0,
            frame: None,
        })
    }

    /// Nothing is held, and the next item stands at a place or behind it.
    pub fn restart(&mut self, place: u64)
        ensures { self.new ≡ empty_holding self.old.size place }
    {
        self.buffer.clear();
        self.place = place;
        self.frame = None;
    }

    /// The place behind the last picked entry that was put.
    pub fn place(&self) -> u64
        ensures { result ≡ self.now.place }
    {
        self.place
    }

    /// The place of the last frame that was put.
    pub fn frame(&self) -> Option<u64>
        ensures { result ≡ self.now.frame }
    {
        self.frame
    }

    /// The held items.
    pub fn items(&self) -> &[Item]
        ensures { select.items_of result.now ≡ self.now.told }
    {
        self.buffer.items()
    }

    /// Whether nothing is held.
    pub fn is_empty(&self) -> bool
        ensures { result ≡ (length self.now.told == 0) }
    {
        self.items().is_empty()
    }

    /// How many further items there is room for.
    pub fn room(&self) -> u32
        ensures { result ≡ self.now.size - length self.now.told }
    {
        self.buffer.room()
    }

    /// How many octets of frames may come before it is full.
    pub fn octets_left(&self) -> u32
        ensures { result ≡ FULL_BUFFER - sum_by frame_octets (items_of self.now.told) }
    {
        (FULL_BUFFER as u64).saturating_sub(self.buffer.octets()) as u32
    }

    // Whether a further item goes in.
    fn takes_more(&self) -> bool
        ensures { result ≡ takes_more self.now }
    {
        self.buffer.is_open()
    }

    /// Whether the held items are due.
    pub fn due(&self, now: u128, latency: Option<u128>, last: bool) -> bool
        ensures { result ≡ is_due_of self.now.size latency now last
            (contents self.now.since (items_of self.now.told)) }
    {
        self.buffer.due(now, latency, last)
    }

    /// Whether a picked entry is held.
    pub fn has_archived(&self) -> bool
        ensures { result ≡ list_any is_archived (items_of self.now.told) }
    {
        parts::any_archived(self.items())
    }

    /// Whether a discard is told.
    pub fn has_backlog(&self) -> bool
        ensures { result ≡ list_any is_backlog (items_of self.now.told) }
    {
        parts::any_backlog(self.items())
    }

    /// How many items are held, a backlog not counted.
    pub fn items_told(&self) -> u32
        ensures { result ≡ items_told (items_of self.now.told) }
    {
        let _room = self.buffer.room();
        parts::items_told(self.buffer.items()) as u32
    }

    /// Whether end of data is told.
    pub fn has_end_of_data(&self) -> bool
        ensures { result ≡ list_any is_end_of_data (items_of self.now.told) }
    {
        parts::any_end_of_data(self.items())
    }

    // Puts an item behind the others.
    fn put(&mut self, item: Item, now: u128)
        requires open { IsTrue (takes_more self.old) }
        requires small { IsTrue (is_of_archive (select.item_of item).0) }
        ensures { self.new ≡ with_put self.old (select.item_of item ∷ []) now }
    {
        let octets = parts::frame_octets(&item) as u32;
        let is_notification = parts::is_notification(&item);
        let is_closing = parts::is_closing(&item);
        self.place = parts::place_behind(self.place, &item);
        self.frame = parts::last_frame(self.frame, &item);
        self.buffer
            .put(item, octets, is_notification, is_closing, now);
    }

    // Puts the notice of backlog, where one is owed and nothing is held.
    fn put_head(&mut self, is_owed: bool, now: u128)
        requires { 0 < self.old.size }
        ensures { self.new ≡ headed self.old is_owed now }
    {
        if is_owed && self.is_empty() {
            self.put(Item::Backlog, now);
        }
    }

    // Puts end of data, where nothing is held and nothing more comes. It waits for nothing, so the
    // moment of a first item stays.
    fn put_end(&mut self, is_last: bool)
        requires { 0 < self.old.size }
        ensures { self.new ≡ ended_with self.old is_last }
    {
        if self.is_empty() && is_last {
            let since = self.buffer.since();
            self.put(Item::EndOfData, since);
        }
    }

    // Puts as many of the items as go in, and says whether all did.
    fn put_all(&mut self, items: Items, now: u128) -> bool
        requires { IsTrue (are_of_archive items) }
        ensures after { self.new ≡ filled_with self.old items now }
        ensures all { result ≡ (fitting self.old items == length items) }
    {
        buffer_takes_what_fits();
        for item in items.into_vec() {
            if !self.takes_more() {
                return false;
            }
            self.put(item, now);
        }
        true
    }

    /// Fills the buffer with what a look gave, behind a backlog that is owed, and says whether
    /// nothing more comes.
    pub fn fill(&mut self, is_owed: bool, glimpse: Glimpse, now: u128) -> bool
        requires some { 0 < self.old.size }
        requires small { IsTrue (are_of_archive glimpse.items) }
        ensures after { self.new ≡ filled_at self.old is_owed (glimpse_of glimpse) now }
        ensures last { result ≡ is_last_of self.old is_owed (glimpse_of glimpse) now }
    {
        self.put_head(is_owed, now);
        let is_all_put = self.put_all(glimpse.items, now);
        let is_last = glimpse.closed && !glimpse.more && is_all_put;
        self.put_end(is_last);
        is_last
    }

    /// Drops the held items, which were taken or discarded; `frame` is the last frame that was
    /// handed over.
    pub fn release(&mut self, frame: Option<u64>)
        ensures { self.new ≡ without_held self.old frame }
    {
        self.buffer.release();
        self.frame = frame;
    }
}
