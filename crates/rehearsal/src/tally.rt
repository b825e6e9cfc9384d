// What is counted of the buffers that are handed over.
ghost use Rattle.std.specs.Prelude.{◌≡◌, ℕ, ◌≤◌, ◌<◌, ◌+◌, ◌^◌, if◌then◌else◌, List, [], ◌++◌};
ghost use Rattle.std.specs.Prelude.{length};
ghost use Rattle.std.specs.List.{count_by, list_any};
ghost use Rattle.sha1.specs.Sha1.{Holds};
ghost use Rattle.frame_select.specs.Item.{item_of, items_of};
ghost use Rattle.rehearsal.specs.Counts.{Counts, tells_frame, tells_end};

use frame_select::Item;
use sha1::Sha1;

/// Counts of buffers, and the octets of their messages as a hash function took them.
#[derive(Debug, Drop)]
pub struct Tally {
    /// The frames.
    pub frames: u64,
    /// The buffers that have a frame.
    pub buffers: u64,
    /// The items that are the end of data.
    pub ends: u64,
    pub hasher: Sha1,
}

impl Tally {
    /// Of no buffers.
    pub fn new() -> Tally
        ensures counts { Counts result [] }
        ensures frames { result.frames ≡ 0 }
        ensures buffers { result.buffers ≡ 0 }
        ensures ends { result.ends ≡ 0 }
    {
        Tally {
            frames: 0,
            buffers: 0,
            ends: 0,
            hasher: Sha1::new(),
        }
    }

    /// Counts a buffer of these items, which this message handed over.
    pub fn add(&mut self, items: &[Item], message: &[u8])
        requires frames { self.old.frames + length items.now < 2 ^ 64 }
        requires buffers { self.old.buffers + 1 < 2 ^ 64 }
        requires ends { self.old.ends + length items.now < 2 ^ 64 }
        ensures frames { self.new.frames
            ≡ self.old.frames + count_by tells_frame (items_of items.now) }
        ensures buffers { self.new.buffers
            ≡ self.old.buffers + (if list_any tells_frame (items_of items.now) then 1 else 0) }
        ensures ends { self.new.ends ≡ self.old.ends + count_by tells_end (items_of items.now) }
        ensures octets { (octets : List ℕ) → Holds self.old.hasher octets
            → Holds self.new.hasher (octets ++ message.now) }
    {
        self.hasher.update(message);
        self.frames += count_frames(items);
        self.buffers += u64::from(has_frame(items));
        self.ends += count_ends(items);
    }
}

fn has_frame(items: &[Item]) -> bool
    ensures { result ≡ list_any tells_frame (items_of items.now) }
{
    let mut has = false;
    for item in items {
        has = has || is_frame(item);
    }
    has
}

fn count_frames(items: &[Item]) -> u64
    ensures exact { result ≡ count_by tells_frame (items_of items.now) }
    ensures few { result ≤ length items.now }
{
    let mut count = 0;
    for item in items {
        count += u64::from(is_frame(item));
    }
    count
}

fn count_ends(items: &[Item]) -> u64
    ensures exact { result ≡ count_by tells_end (items_of items.now) }
    ensures few { result ≤ length items.now }
{
    let mut count = 0;
    for item in items {
        count += u64::from(is_end(item));
    }
    count
}

fn is_frame(item: &Item) -> bool
    ensures { result ≡ tells_frame (item_of item.now) }
{
    matches!(item, Item::Frame { .. })
}

fn is_end(item: &Item) -> bool
    ensures { result ≡ tells_end (item_of item.now) }
{
    matches!(item, Item::EndOfData)
}
