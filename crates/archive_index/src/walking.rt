// Walks over an index.
ghost use Rattle.std.specs.Prelude.{◌≡◌, ◌+◌, ◌*◌, ◌<◌, ◌≤◌, ◌^◌, ℕ, List, length, IfSome, Some};
ghost use Rattle.std.specs.Prelude.{Option, not, slice_get, max, take, nat_le, nat_lt, true, false};
ghost use Rattle.std.specs.Prelude.{option_map};
ghost use Rattle.std.specs.List.{list_any};
ghost use Rattle.std.specs.Option.{option_map_or};
ghost use Rattle.archive_terms.specs.Archive as archive;
ghost use Rattle.archive_terms.specs.Archive.{IsArchive, is_closed};
ghost use Rattle.archive_terms.specs.Selection as terms;
ghost use Rattle.archive_terms.specs.Selection.{is_not_after, is_frame_from};
ghost use Rattle.archive_terms.specs.Continuity.{lost_up_to, gap};
ghost use Rattle.archive_terms.specs.declared.limits.TheConstants.{GREATEST_LOST};
ghost use Rattle.frame_select.specs.Selection.{selection_of, filter_of};
ghost use Rattle.archive_index.specs.Rows.{rows_of, passes, IsFirstFrom};
ghost use Rattle.archive_index.specs.Next.{next_picked};
ghost use Rattle.archive_index.specs.IndexState.{Indexes};
ghost use Rattle.archive_index.specs.Walking.{IsWalk, IsNextFrame, IsNextNotice, lost_since};
ghost use Rattle.archive_index.specs.Walking.{lost_found, since_behind, AreNotices, sooner};

use crate::channels::Key;
use crate::index::Index;
use crate::row::{Row, first_from, first_named, row_among, row_in};
use crate::steps::Steps;
use crate::walk::{Found, Walk};
use archive_terms::GREATEST_LOST;
use archive_terms::laws::lost_sums;
use frame_select::{Filter, Selection};
use sle_numbers::RequestedFrameQuality;
use std::sync::ledger::Ledger;

// The next notice of a walk, and the last place at which one is told.
#[derive(Clone, Copy, Debug)]
pub(crate) struct Told {
    pub(crate) notice: u64,
    pub(crate) until: u64,
}

// Whether a moment is above a stop.
fn is_past(stop: Option<u128>, moment: u128) -> bool
    ensures { result ≡ not (is_not_after stop moment) }
{
    stop.is_some_and(|stop| stop < moment)
}

// How many frames were lost between two sums, as it is told.
fn lost_since(before: Option<u64>, through: u64) -> u32
    ensures { result ≡ lost_since before through }
{
    match before {
        Some(sum) => through.saturating_sub(sum).min(u64::from(GREATEST_LOST)) as u32,
        None => 0,
    }
}

// The place of a row: past all entries where there is none.
fn place_of(row: Option<Row>) -> u64
    ensures { result ≡ option_map_or (λ r. r.place) row 18446744073709551615 }
{
    match row {
        Some(row) => row.place,
        None => u64::MAX,
    }
}

// The row of a notice, where it comes before that of a frame.
fn sooner(notice: Option<Row>, frame: Option<Row>) -> Option<Row>
    ensures { result ≡ sooner notice frame }
{
    match (notice, frame) {
        (Some(one), Some(other)) if other.place < one.place => None,
        (one, _) => one,
    }
}

impl Index {
    /// A walk over what a selection picks, from a place on and after the frame at `since`. With b
    /// the binary digits of the number of entries it takes at most 8 b + 2 steps.
    pub fn walk<L: Ledger>(
        &self,
        selection: &Selection,
        place: u64,
        since: Option<u64>,
        steps: &mut Steps<L>,
    ) -> Walk
        ensures walk { (entries : List archive.Entry) → Indexes self.now entries
            → IsArchive entries
            → IsWalk entries (selection_of selection.now) place since result }
        ensures steps { (entries : List archive.Entry) (b : ℕ) → Indexes self.now entries
            → length entries < 2 ^ b → steps.new ≤ steps.old + (8 * b + 2) }
    {
        let first = place.max(selection.first);
        let frame = self.first_passing(
            &selection.filter,
            first,
            selection.start.unwrap_or(0),
            steps,
        );
        let told = self.told(selection, first, steps);
        let lost = match since {
            Some(before) => Some(self.lost_through(before, steps)),
            None => None,
        };
        Walk {
            filter: selection.filter,
            stop: selection.stop,
            frame,
            notice: told.notice,
            until: told.until,
            lost,
        }
    }

    /// The next picked entry of a walk over this index: the least picked place that is left, or none
    /// where there is none. It takes at most 4 steps.
    pub fn onward<L: Ledger>(&self, walk: &mut Walk, steps: &mut Steps<L>) -> Option<Found>
        ensures next { (entries : List archive.Entry) (s : terms.Selection) (place : ℕ)
            (since : Option ℕ) → Indexes self.now entries → IsArchive entries
            → IsWalk entries s place since walk.old
            → option_map (λ f. f.place) result ≡ next_picked entries s place }
        ensures found { (entries : List archive.Entry) (s : terms.Selection) (place : ℕ)
            (since : Option ℕ) (e : archive.Entry) → Indexes self.now entries → IsArchive entries
            → IsWalk entries s place since walk.old
            → IfSome result (λ f. slice_get entries f.place ≡ Some e
            → (f.lost ≡ lost_found entries since f.place e)
            × IsWalk entries s (f.place + 1) (since_behind since f.place e) walk.new) }
        ensures capped { IfSome result (λ f. f.lost ≤ GREATEST_LOST) }
        ensures steps { steps.new ≤ steps.old + 4 }
    {
        let frame = self.next_frame(walk, steps);
        let notice = self.next_notice(walk, steps);
        if let Some(row) = sooner(notice, frame) {
            walk.notice += 1;
            return Some(Found {
                place: row.place,
                lost: 0,
            });
        }
        let Some(row) = frame else {
            return None;
        };
        lost_sums();
        let lost = lost_since(walk.lost, row.lost);
        walk.frame += 1;
        walk.lost = Some(row.lost);
        Some(Found {
            place: row.place,
            lost,
        })
    }

    /// The least place at or after `place` whose entry the selection picks. With b the binary digits
    /// of the number of entries it takes at most 8 b + 6 steps.
    pub fn after<L: Ledger>(
        &self,
        selection: &Selection,
        place: u64,
        steps: &mut Steps<L>,
    ) -> Option<u64>
        ensures exact { (entries : List archive.Entry) → Indexes self.now entries
            → IsArchive entries
            → result ≡ next_picked entries (selection_of selection.now) place }
        ensures steps { (entries : List archive.Entry) (b : ℕ) → Indexes self.now entries
            → length entries < 2 ^ b → steps.new ≤ steps.old + (8 * b + 6) }
    {
        let mut walk = self.walk(selection, place, None, steps);
        match self.onward(&mut walk, steps) {
            Some(found) => Some(found.place),
            None => None,
        }
    }

    /// How many frames were lost after the entry at a place, up to and including another one's:
    /// 16,777,215 where there are more. With b the binary digits of the number of entries it takes
    /// at most 2 b steps.
    pub fn lost_between<L: Ledger>(&self, after: u64, upto: u64, steps: &mut Steps<L>) -> u32
        ensures exact { (entries : List archive.Entry) → Indexes self.now entries
            → IsArchive entries → result ≡ gap entries after upto }
        ensures capped { result ≤ GREATEST_LOST }
        ensures steps { (entries : List archive.Entry) (b : ℕ) → Indexes self.now entries
            → length entries < 2 ^ b → steps.new ≤ steps.old + 2 * b }
    {
        lost_sums();
        let through = self.lost_through(upto, steps);
        let before = self.lost_through(after, steps);
        lost_since(Some(before), through)
    }

    // The first row from a place and a moment on among those that a filter lets through.
    fn first_passing<L: Ledger>(
        &self,
        filter: &Filter,
        place: u64,
        moment: u128,
        steps: &mut Steps<L>,
    ) -> u64
        ensures first { (entries : List archive.Entry) → Indexes self.now entries
            → IsArchive entries
            → IsFirstFrom place moment (rows_of (passes (filter_of filter.now)) entries) result }
        ensures steps { (entries : List archive.Entry) (b : ℕ) → Indexes self.now entries
            → length entries < 2 ^ b → steps.new ≤ steps.old + 2 * b }
    {
        match filter {
            Filter::Quality(quality) => match quality {
                RequestedFrameQuality::GoodFramesOnly => {
                    first_named(&self.frames, &self.good, place, moment, steps)
                }
                RequestedFrameQuality::ErredFrameOnly => {
                    first_named(&self.frames, &self.erred, place, moment, steps)
                }
                RequestedFrameQuality::AllFrames => {
                    first_from(&self.frames, place, moment, steps).count
                }
            },
            Filter::Channel(id) => match self.channels.get(&Key::of(id)) {
                Some(numbers) => first_named(&self.frames, numbers, place, moment, steps),
                None => 0,
            },
        }
    }

    // The row at a place among those that a filter lets through.
    fn passing_row<L: Ledger>(
        &self,
        filter: &Filter,
        place: u64,
        steps: &mut Steps<L>,
    ) -> Option<Row>
        ensures row { (entries : List archive.Entry) → Indexes self.now entries
            → result ≡ slice_get (rows_of (passes (filter_of filter.now)) entries) place }
        ensures room { IfSome result (λ _. place + 1 < 2 ^ 64) }
        ensures steps { steps.new ≤ steps.old + 2 }
    {
        match filter {
            Filter::Quality(quality) => match quality {
                RequestedFrameQuality::GoodFramesOnly => {
                    row_among(&self.frames, &self.good, place, steps)
                }
                RequestedFrameQuality::ErredFrameOnly => {
                    row_among(&self.frames, &self.erred, place, steps)
                }
                RequestedFrameQuality::AllFrames => row_in(&self.frames, place, steps),
            },
            Filter::Channel(id) => match self.channels.get(&Key::of(id)) {
                Some(numbers) => row_among(&self.frames, numbers, place, steps),
                None => None,
            },
        }
    }

    // How many frames were lost up to and including the one at a place.
    fn lost_through<L: Ledger>(&self, place: u64, steps: &mut Steps<L>) -> u64
        ensures exact { (entries : List archive.Entry) → Indexes self.now entries
            → IsArchive entries → result ≡ lost_up_to entries (place + 1) }
        ensures steps { (b : ℕ) → length self.now.frames < 2 ^ b
            → steps.new ≤ steps.old + b }
    {
        let _count = self.count;
        match first_from(&self.frames, place.saturating_add(1), 0, steps).before {
            Some(row) => row.lost,
            None => 0,
        }
    }

    // The notices that a selection tells from a place on, at or after its first position.
    fn told<L: Ledger>(&self, selection: &Selection, first: u64, steps: &mut Steps<L>) -> Told
        ensures told { (entries : List archive.Entry) (place : ℕ) → Indexes self.now entries
            → IsArchive entries → first ≡ max place selection.now.first
            → AreNotices entries (selection_of selection.now) place result.notice result.until }
        ensures steps { (entries : List archive.Entry) (b : ℕ) → Indexes self.now entries
            → length entries < 2 ^ b → steps.new ≤ steps.old + 4 * b }
    {
        let _count = self.count;
        let none = Told {
            notice: self.notices.length(),
            until: 0,
        };
        if !selection.notices {
            return none;
        }
        let Some(from) = self.started_from(selection.start, steps) else {
            return none;
        };
        let until = self.open_until(selection.stop, steps);
        let notice = first_from(&self.notices, first.max(from), 0, steps).count;
        Told { notice, until }
    }

    // The first place before which a start is reached, if there is one.
    fn started_from<L: Ledger>(&self, start: Option<u128>, steps: &mut Steps<L>) -> Option<u64>
        ensures exact { (entries : List archive.Entry) (place : ℕ) → Indexes self.now entries
            → IsArchive entries
            → option_map_or (λ t. list_any (is_frame_from t) (take place entries)) start true
            ≡ option_map_or (λ from. nat_le from place) result false }
        ensures steps { (b : ℕ) → length self.now.frames < 2 ^ b
            → steps.new ≤ steps.old + b }
    {
        let _count = self.count;
        match start {
            None => Some(0),
            Some(moment) => match first_from(&self.frames, 0, moment, steps).behind {
                Some(row) => Some(row.place.saturating_add(1)),
                None => None,
            },
        }
    }

    // The last place before which a stop isn't closed.
    fn open_until<L: Ledger>(&self, stop: Option<u128>, steps: &mut Steps<L>) -> u64
        ensures exact { (entries : List archive.Entry) (place : ℕ) → Indexes self.now entries
            → IsArchive entries → place < 2 ^ 64
            → option_map_or (is_closed (take place entries)) stop false ≡ nat_lt result place }
        ensures steps { (b : ℕ) → length self.now.frames < 2 ^ b
            → length self.now.seals < 2 ^ b → steps.new ≤ steps.old + 2 * b }
    {
        let Some(stop) = stop else {
            return u64::MAX;
        };
        let frame = first_from(&self.frames, 0, stop.saturating_add(1), steps).behind;
        let seal = first_from(&self.seals, 0, stop, steps).behind;
        place_of(frame).min(place_of(seal))
    }

    // The row of the next frame of a walk.
    fn next_frame<L: Ledger>(&self, walk: &Walk, steps: &mut Steps<L>) -> Option<Row>
        ensures next { (entries : List archive.Entry) (s : terms.Selection) (place : ℕ)
            (since : Option ℕ) → Indexes self.now entries → IsArchive entries
            → IsWalk entries s place since walk.now → IsNextFrame entries s place walk.now result }
        ensures room { IfSome result (λ _. walk.now.frame + 1 < 2 ^ 64) }
        ensures steps { steps.new ≤ steps.old + 2 }
    {
        let Some(row) = self.passing_row(&walk.filter, walk.frame, steps) else {
            return None;
        };
        if is_past(walk.stop, row.moment) {
            return None;
        }
        Some(row)
    }

    // The row of the next notice of a walk.
    fn next_notice<L: Ledger>(&self, walk: &Walk, steps: &mut Steps<L>) -> Option<Row>
        ensures next { (entries : List archive.Entry) (s : terms.Selection) (place : ℕ)
            (since : Option ℕ) → Indexes self.now entries → IsArchive entries
            → IsWalk entries s place since walk.now
            → IsNextNotice entries s place walk.now result }
        ensures room { IfSome result (λ _. walk.now.notice + 1 < 2 ^ 64) }
        ensures steps { steps.new ≤ steps.old + 1 }
    {
        let Some(row) = row_in(&self.notices, walk.notice, steps) else {
            return None;
        };
        if row.place > walk.until {
            return None;
        }
        Some(row)
    }
}
