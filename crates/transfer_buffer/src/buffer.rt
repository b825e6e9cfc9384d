// The buffer.
ghost use Rattle.std.specs.Prelude.{◌≡◌, ◌-◌, ◌≤◌, length, IsTrue, IfOk};
ghost use Rattle.archive_terms.specs.Delivery.{is_due_of};
ghost use Rattle.transfer_buffer.specs.Held.{empty_buffer, contents_of, is_full, is_open};
ghost use Rattle.transfer_buffer.specs.Held.{with_item, emptied};

use crate::memory::Memory;
use archive_terms::FULL_BUFFER;
use std::alloc::Global;
use std::marker::Model;

/// The items that are held for the next message of a return service.
#[derive(Drop)]
pub struct Buffer<T> {
    size: u32,
    items: Vec<T>,
    octets: u64,
    notified: bool,
    closing: bool,
    since: u128,
}

impl<T> Model for Buffer<T> {
    ghost use Rattle.std.specs.Prelude.{◌≤◌, vec_len, vec_items};
    ghost use Rattle.std.specs.Vec.{vec_capacity};
    ghost use Rattle.transfer_buffer.specs.Held.{Held, held_code};

    ghost Value = { Held T };

    ghost coded = { held_code T.code };

    ghost view = { λ b. record {
      size = b.size;
      items = vec_items b.items;
      octets = b.octets;
      notified = b.notified;
      closing = b.closing;
      since = b.since;
    } };

    ghost invariant = { λ b. (vec_len b.items ≤ b.size) × (b.size ≤ vec_capacity b.items) };
}

impl<T: Drop> Buffer<T> {
    /// An empty buffer for so many items. It reserves room for all of them.
    pub fn new(alloc: Global, size: u32) -> Result<Buffer<T>, Memory>
        ensures { IfOk result (λ buffer. buffer ≡ empty_buffer size) }
    {
        let items = Vec::with_capacity(alloc, size as usize)?;
        Ok(Buffer {
            size,
            items,
            octets: 0,
            notified: false,
            closing: false,
            since: 0,
        })
    }

    /// How many items it may take yet, by their number alone.
    pub fn room(&self) -> u32
        ensures room { result ≡ self.now.size - length self.now.items }
        ensures within { length self.now.items ≤ self.now.size }
    {
        self.size - self.items.len() as u32
    }

    /// How many octets of frames are held.
    pub fn octets(&self) -> u64
        ensures { result ≡ self.now.octets }
    {
        self.octets
    }

    /// When the first of the held items was put; where nothing is held, the first one before.
    pub fn since(&self) -> u128
        ensures { result ≡ self.now.since }
    {
        self.since
    }

    /// The held items, in order.
    pub fn items(&self) -> &[T]
        ensures { result.now ≡ self.now.items }
    {
        &self.items
    }

    /// Whether it is full: of items, or of octets of frames.
    pub fn full(&self) -> bool
        ensures { result ≡ is_full self.now }
    {
        self.items.len() >= self.size as usize || self.octets >= FULL_BUFFER as u64
    }

    /// Whether it takes a further item: it isn't full and holds no closing item.
    pub fn is_open(&self) -> bool
        ensures { result ≡ is_open self.now }
    {
        !(self.full() || self.closing)
    }

    /// Puts an item behind the others, with so many octets of frames. `notice` says that it is a
    /// notification, and `closing` that it is a loss of synchronisation or a production change,
    /// behind which nothing goes into the buffer.
    pub fn put(&mut self, item: T, octets: u32, notice: bool, closing: bool, now: u128)
        requires { IsTrue (is_open self.old) }
        ensures { self.new ≡ with_item self.old item octets notice closing now }
    {
        if self.items.is_empty() {
            self.since = now;
        }
        self.items.push_reserved(item);
        self.octets += u64::from(octets);
        self.notified = self.notified || notice;
        self.closing = self.closing || closing;
    }

    /// Whether the held items are due at `now`: they hold a notification, are full, were begun
    /// `latency` picoseconds ago or longer, or are the last ones.
    pub fn due(&self, now: u128, latency: Option<u128>, last: bool) -> bool
        ensures { result ≡ is_due_of self.now.size latency now last (contents_of self.now) }
    {
        let waited = now.saturating_sub(self.since);
        let is_late = latency.is_some_and(|limit| limit <= waited);
        !self.items.is_empty() && (self.notified || self.full() || is_late || last)
    }

    /// Drops the held items, which were taken.
    pub fn release(&mut self)
        ensures { self.new ≡ emptied self.old }
    {
        self.items.clear();
        self.octets = 0;
        self.notified = false;
        self.closing = false;
    }

    /// Drops the held items, which were not taken, and says how many there were.
    pub fn discard(&mut self) -> u32
        ensures after { self.new ≡ emptied self.old }
        ensures count { result ≡ length self.old.items }
    {
        let count = self.items.len() as u32;
        self.release();
        count
    }

    /// Drops the held items, and is as it was made.
    pub fn clear(&mut self)
        ensures { self.new ≡ empty_buffer self.old.size }
    {
        self.release();
        self.since = 0;
    }
}
