// The index.
ghost use Rattle.std.specs.Prelude.{◌≡◌, ◌+◌, [], ◌∷◌, ◌++◌, List, IfOk, OnOk, OnErr, option_map};
ghost use Rattle.std.specs.Prelude.{length, take, ◌-◌};
ghost use Rattle.std.specs.List.{sum_by};
ghost use Rattle.archive_terms.specs.Archive as archive;
ghost use Rattle.archive_terms.specs.Archive.{may_follow};
ghost use Rattle.archive_terms.specs.Selection.{channel_of};
ghost use Rattle.archive_terms.specs.Continuity.{lost_of};
ghost use Rattle.sle_numbers.specs.FrameQuality.{number_of as quality_number};
ghost use Rattle.record_form.specs.Entry.{entry_of, entries_of};
ghost use Rattle.archive_index.specs.Rows.{row_at};
ghost use Rattle.archive_index.specs.IndexState.{Indexes, Sorts, AreSame, AddsFrame, IsMark, lists_of};
ghost use Rattle.archive_index.specs.IndexState.{AddsNumber, TakesFrame, more_if, less_if, is_for};
ghost use Rattle.archive_index.specs.Keys.{list_of};
ghost use Rattle.archive_index.specs.declared.channels.Key as key;
ghost use Rattle.cds_time.specs.Moment.{moment_of};
ghost use Rattle.std.specs.Option.{unwrap_or};

use crate::channels::{Key, drop_channels, push_channels};
use crate::mark::Mark;
use crate::row::Row;
use crate::shelf::Shelf;
use crate::totals::{NONE, Totals, lost_of};
use cds_time::Cds;
use frame_select::channel_of;
use octet_core::Memory;
use record_form::Entry;
use sle_numbers::FrameQuality;
use std::alloc::Global;
use std::collections::BTreeMap;

/// An index of a list of entries.
#[derive(Debug, Drop)]
pub struct Index {
    pub(crate) alloc: Global,
    // The rows of all frames.
    pub(crate) frames: Shelf<Row>,
    // The numbers, among these rows, of good frames, of erred ones, and of the good ones of a
    // channel.
    pub(crate) good: Shelf<u64>,
    pub(crate) erred: Shelf<u64>,
    pub(crate) channels: BTreeMap<Key, Shelf<u64>>,
    // The rows of seals, and of losses of synchronisation and changes of the production status.
    pub(crate) seals: Shelf<Row>,
    pub(crate) notices: Shelf<Row>,
    // How many entries there are, and what they tell together.
    pub(crate) count: u64,
    pub(crate) totals: Totals,
}

impl Index {
    /// The index of no entries.
    pub fn new(alloc: Global) -> Result<Index, Memory>
        ensures { IfOk result (λ index. Indexes index []) }
    {
        Ok(Index {
            alloc,
            frames: Shelf::new(alloc)?,
            good: Shelf::new(alloc)?,
            erred: Shelf::new(alloc)?,
            channels: BTreeMap::new(alloc),
            seals: Shelf::new(alloc)?,
            notices: Shelf::new(alloc)?,
            count: 0,
            totals: NONE,
        })
    }

    /// Adds an entry after the others. Out of memory leaves it the index of the same entries.
    pub fn add(&mut self, entry: &Entry) -> Result<(), Memory>
        ensures ok { OnOk result ((entries : List archive.Entry) → Indexes self.old entries
            → Indexes self.new (entries ++ entry_of entry.now ∷ [])) }
        ensures err { OnErr result ((entries : List archive.Entry) → Indexes self.old entries
            → Indexes self.new entries) }
    {
        // There is no memory for so many entries.
        let Some(count) = self.count.checked_add(1) else {
            return Err(Memory);
        };
        let Some(lost) = self.totals.lost.checked_add(lost_of(entry)) else {
            return Err(Memory);
        };
        let totals = self.totals.with(entry);
        self.put(entry, self.count, lost)?;
        self.count = count;
        self.totals = totals;
        Ok(())
    }

    /// Whether an archive of these entries goes on with another one: it may be stored, and it keeps
    /// the order of times. It costs the same however many entries there are.
    pub fn may_follow(&self, entry: &Entry) -> bool
        ensures { (entries : List archive.Entry) → Indexes self.now entries
            → result ≡ may_follow entries (entry_of entry.now) }
    {
        entry.is_storable() && self.totals.is_in_order(entry)
    }

    /// Where the index stands, to go back to.
    pub fn mark(&self) -> Mark
        ensures { (entries : List archive.Entry) → Indexes self.now entries
            → IsMark result entries }
    {
        Mark {
            count: self.count,
            totals: self.totals,
        }
    }

    /// Goes back to a mark, behind which these entries were added.
    pub fn go_back(&mut self, mark: &Mark, added: &[Entry])
        ensures { (entries : List archive.Entry) → IsMark mark.now entries
            → Indexes self.old (entries ++ entries_of added.now) → Indexes self.new entries }
    {
        let mut left = added.len();
        while left > 0 {
            left -= 1;
            self.take_off(&added[left]);
        }
        self.count = mark.count;
        self.totals = mark.totals;
    }

    // Puts an entry's row into the lists where it belongs.
    fn put(&mut self, entry: &Entry, place: u64, lost: u64) -> Result<(), Memory>
        ensures ok { OnOk result ((entries : List archive.Entry) → Sorts (lists_of self.old) entries
            → place ≡ length entries
            → lost ≡ sum_by lost_of entries + lost_of (entry_of entry.now)
            → Sorts (lists_of self.new) (entries ++ entry_of entry.now ∷ [])) }
        ensures err { OnErr result (AreSame (lists_of self.old) (lists_of self.new)) }
        ensures count { self.new.count ≡ self.old.count }
        ensures totals { self.new.totals ≡ self.old.totals }
    {
        match entry {
            Entry::Frame {
                ert,
                quality,
                octets,
                ..
            } => self.put_frame(row_of(ert, place, lost), *quality, octets.as_slice()),
            Entry::LossOfSync { .. } => put_row(&mut self.notices, untimed(place, lost)),
            Entry::Production { .. } => put_row(&mut self.notices, untimed(place, lost)),
            Entry::Seal { at } => put_row(&mut self.seals, row_of(at, place, lost)),
        }
    }

    // Puts a frame's row after the others, and its number into the lists of its quality and channel.
    fn put_frame(&mut self, row: Row, quality: FrameQuality, octets: &[u8]) -> Result<(), Memory>
        ensures ok { OnOk result (AddsFrame (lists_of self.old) (lists_of self.new) row
            (quality_number quality) (channel_of octets.now)) }
        ensures err { OnErr result (AreSame (lists_of self.old) (lists_of self.new)) }
        ensures count { self.new.count ≡ self.old.count }
        ensures totals { self.new.totals ≡ self.old.totals }
    {
        let number = self.frames.length();
        put_row(&mut self.frames, row)?;
        match self.put_number(number, quality, octets) {
            Ok(()) => Ok(()),
            Err(Memory) => {
                self.frames.cut(number);
                Err(Memory)
            }
        }
    }

    // Puts the number of a frame's row into the lists of its quality and channel.
    fn put_number(
        &mut self,
        number: u64,
        quality: FrameQuality,
        octets: &[u8],
    ) -> Result<(), Memory>
        ensures ok { OnOk result (AddsNumber (lists_of self.old) (lists_of self.new) number
            (quality_number quality) (channel_of octets.now)) }
        ensures err { OnErr result (AreSame (lists_of self.old) (lists_of self.new)) }
        ensures rest { self.new ≡ record self.old {
          good = self.new.good;
          erred = self.new.erred;
          channels = self.new.channels;
        } }
    {
        match quality {
            FrameQuality::Good => {
                put_good(
                    self.alloc,
                    &mut self.good,
                    &mut self.channels,
                    number,
                    octets,
                )
            }
            FrameQuality::Erred => put_row(&mut self.erred, number),
            FrameQuality::Undetermined => Ok(()),
        }
    }

    // Takes the last entry's row off the lists.
    fn take_off(&mut self, entry: &Entry)
        ensures { (entries : List archive.Entry)
            → Sorts (lists_of self.old) (entries ++ entry_of entry.now ∷ [])
            → Sorts (lists_of self.new) entries }
    {
        match entry {
            Entry::Frame {
                quality,
                octets,
                ..
            } => self.take_frame(*quality, octets.as_slice()),
            Entry::LossOfSync { .. } => take_last(&mut self.notices),
            Entry::Production { .. } => take_last(&mut self.notices),
            Entry::Seal { .. } => take_last(&mut self.seals),
        }
    }

    // Takes the last frame's row off the lists.
    fn take_frame(&mut self, quality: FrameQuality, octets: &[u8])
        ensures { TakesFrame (lists_of self.old) (lists_of self.new) (quality_number quality)
            (channel_of octets.now) }
    {
        take_last(&mut self.frames);
        match quality {
            FrameQuality::Good => take_good(&mut self.good, &mut self.channels, octets),
            FrameQuality::Erred => take_last(&mut self.erred),
            FrameQuality::Undetermined => {}
        }
    }
}

// Puts the number of a good frame's row into the lists of good frames and of its channel.
fn put_good(
    alloc: Global,
    good: &mut Shelf<u64>,
    channels: &mut BTreeMap<Key, Shelf<u64>>,
    number: u64,
    octets: &[u8],
) -> Result<(), Memory>
    ensures good { OnOk result (good.new ≡ good.old ++ number ∷ []) }
    ensures channels { OnOk result ((k : key.Key) → list_of channels.new k
        ≡ more_if (is_for k (channel_of octets.now)) (list_of channels.old k) number) }
    ensures err_good { OnErr result (good.new ≡ good.old) }
    ensures err_channels { OnErr result ((k : key.Key) → list_of channels.new k
        ≡ list_of channels.old k) }
{
    let before = good.length();
    put_row(good, number)?;
    let Some(id) = channel_of(octets) else {
        return Ok(());
    };
    match push_channels(alloc, channels, &id, number) {
        Ok(()) => Ok(()),
        Err(Memory) => {
            good.cut(before);
            Err(Memory)
        }
    }
}

// Takes the last numbers off the lists of good frames and of a channel.
fn take_good(good: &mut Shelf<u64>, channels: &mut BTreeMap<Key, Shelf<u64>>, octets: &[u8])
    ensures good { good.new ≡ take (length good.old - 1) good.old }
    ensures channels { (k : key.Key) → list_of channels.new k
        ≡ less_if (is_for k (channel_of octets.now)) (list_of channels.old k) }
{
    take_last(good);
    if let Some(id) = channel_of(octets) {
        drop_channels(channels, &id);
    }
}

// The row of an entry with a time.
fn row_of(time: &Cds, place: u64, lost: u64) -> Row
    ensures { result ≡ record {
      place = place;
      moment = unwrap_or (moment_of time.now) 0;
      lost = lost;
    } }
{
    Row {
        place,
        moment: time.moment().unwrap_or(0),
        lost,
    }
}

// The row of an entry without a time of its own.
fn untimed(place: u64, lost: u64) -> Row
    ensures { result ≡ record { place = place; moment = 0; lost = lost } }
{
    Row {
        place,
        moment: 0,
        lost,
    }
}

// Puts a value after the others of a list.
fn put_row<T: Drop>(list: &mut Shelf<T>, value: T) -> Result<(), Memory>
    ensures ok { OnOk result (list.new ≡ list.old ++ value ∷ []) }
    ensures err { OnErr result (list.new ≡ list.old) }
{
    match list.push(value) {
        Ok(()) => Ok(()),
        Err(_) => Err(Memory),
    }
}

// Takes the last value off a list.
fn take_last<T: Drop>(list: &mut Shelf<T>)
    ensures { list.new ≡ take (length list.old - 1) list.old }
{
    list.cut(list.length().saturating_sub(1));
}
