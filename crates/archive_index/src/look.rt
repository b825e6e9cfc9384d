// What a look gives.
ghost use Rattle.std.specs.Prelude.{◌≡◌, ◌+◌, ◌*◌, ◌<◌, ◌≤◌, ◌^◌, ℕ, List, IfOk, IsTrue, length};
ghost use Rattle.std.specs.Prelude.{Option, Some};
ghost use Rattle.archive_terms.specs.Archive as archive;
ghost use Rattle.archive_terms.specs.Archive.{IsArchive};
ghost use Rattle.archive_terms.specs.Delivery.{archived};
ghost use Rattle.archive_terms.specs.Continuity.{continuity_of};
ghost use Rattle.archive_terms.specs.Glimpse.{glimpse};
ghost use Rattle.record_form.specs.Entry.{entry_of, entries_of};
ghost use Rattle.frame_select.specs.Selection.{selection_of};
ghost use Rattle.frame_select.specs.Item.{item_of, said_of};
ghost use Rattle.frame_select.specs.Want.{want_of};
ghost use Rattle.frame_select.specs.Glimpse.{glimpse_of, as_said};
ghost use Rattle.archive_index.specs.IndexState.{Indexes};
ghost use Rattle.archive_index.specs.Walking.{lost_found};
ghost use Rattle.archive_index.specs.Look.{is_told_of, Gives, wanted_of, continuity_by};
ghost use Rattle.archive_terms.specs.declared.limits.TheConstants.{GREATEST_LOST};

use crate::cursor::Cursor;
use crate::index::Index;
use crate::shelf::Shelf;
use crate::steps::Steps;
use frame_select::{Glimpse, Item, Items, Selection, Want};
use octet_core::Memory;
use record_form::Entry;
use std::alloc::Global;
use std::sync::ledger::Ledger;

// The items that a look gives, the place behind them, and whether a picked entry remains.
#[derive(Debug, Drop)]
pub(crate) struct Given {
    pub(crate) items: Items,
    pub(crate) next: u64,
    pub(crate) more: bool,
}

impl Index {
    /// What a look at these entries gives, of which this is the index. With n items given and b the
    /// binary digits of the number of entries it takes at most 6 n + 8 b + 8 steps.
    pub fn glimpse<L: Ledger>(
        &self,
        alloc: Global,
        entries: &Shelf<Entry>,
        want: &Want,
        steps: &mut Steps<L>,
    ) -> Result<Glimpse, Memory>
        requires indexes { Indexes self.now (entries_of entries.now) }
        requires archive { IsArchive (entries_of entries.now) }
        ensures glimpse { IfOk result (λ g. glimpse_of g
            ≡ as_said (glimpse (entries_of entries.now) (want_of want.now))) }
        ensures steps { IfOk result (λ g. (b : ℕ) → length entries.now < 2 ^ b
            → steps.new ≤ steps.old + (6 * length g.items + 8 * b + 8)) }
    {
        let totals = self.totals;
        let front = entries.length();
        let Want::Items {
            selection,
            place,
            since,
            room,
            octets,
        } = want
        else {
            return Ok(Glimpse {
                front,
                items: Items::new(alloc),
                next: 0,
                more: false,
                closed: false,
                locks: totals.locks(),
                production: totals.production(),
            });
        };
        let cursor = Cursor {
            place: *place,
            since: *since,
            room: *room,
            octets: *octets as usize,
        };
        let given = self.give(alloc, entries, selection, cursor, steps)?;
        Ok(Glimpse {
            front,
            items: given.items,
            next: given.next,
            more: given.more,
            closed: totals.has_closed(selection.stop),
            locks: totals.locks(),
            production: totals.production(),
        })
    }

    // Gives the picked entries that are wanted.
    fn give<L: Ledger>(
        &self,
        alloc: Global,
        entries: &Shelf<Entry>,
        selection: &Selection,
        first: Cursor,
        steps: &mut Steps<L>,
    ) -> Result<Given, Memory>
        requires indexes { Indexes self.now (entries_of entries.now) }
        requires archive { IsArchive (entries_of entries.now) }
        ensures gives { IfOk result (Gives (entries_of entries.now)
            (wanted_of (selection_of selection.now) first)) }
        ensures steps { IfOk result (λ g. (b : ℕ) → length entries.now < 2 ^ b
            → steps.new ≤ steps.old + (6 * length g.items + 8 * b + 8)) }
    {
        let _count = self.count;
        let mut cursor = first;
        let mut items = Items::new(alloc);
        let mut walk = self.walk(selection, cursor.place, cursor.since, steps);
        while let Some(found) = self.onward(&mut walk, steps) {
            if cursor.is_full() {
                return Ok(Given {
                    items,
                    next: cursor.place,
                    more: true,
                });
            }
            let entry = entries.read(found.place, steps);
            items.push(item(entry, found.place, cursor.since, found.lost)?)?;
            cursor = cursor.behind(found.place, entry);
        }
        Ok(Given {
            items,
            next: cursor.place,
            more: false,
        })
    }
}

// The item of an entry at a place, after a frame that was handed over or is held, with the frames
// lost since.
fn item(entry: &Entry, place: u64, since: Option<u64>, lost: u32) -> Result<Item, Memory>
    requires told { IsTrue (is_told_of (entry_of entry.now)) }
    requires lost { lost ≤ GREATEST_LOST }
    ensures { IfOk result (λ item. (entries : List archive.Entry)
        → lost ≡ lost_found entries since place (entry_of entry.now) →
        let told = archived place (entry_of entry.now) in
        item_of item ≡ said_of (told, continuity_of entries (since, told))) }
{
    match entry {
        Entry::Frame {
            ert,
            quality,
            antenna,
            octets,
            ..
        } => Ok(Item::Frame {
            place,
            ert: *ert,
            quality: *quality,
            antenna: antenna.clone()?,
            continuity: continuity(since, lost),
            octets: octets.clone()?,
        }),
        Entry::LossOfSync {
            at,
            carrier,
            subcarrier,
            symbol,
        } => Ok(Item::Loss {
            place,
            at: *at,
            carrier: *carrier,
            subcarrier: *subcarrier,
            symbol: *symbol,
        }),
        Entry::Production { status } => Ok(Item::Production {
            place,
            status: *status,
        }),
        Entry::Seal { .. } => unreachable!(),
    }
}

// The continuity of a frame: -1 where none was handed over before it.
fn continuity(since: Option<u64>, lost: u32) -> i32
    requires { lost ≤ GREATEST_LOST }
    ensures { result ≡ continuity_by since lost }
{
    match since {
        Some(_) => lost as i32,
        None => -1,
    }
}
