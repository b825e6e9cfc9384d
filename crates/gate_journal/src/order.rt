// The order of an archive, entry by entry.
ghost use Rattle.std.specs.Prelude.{◌≡◌, ◌&&◌, ◌++◌, [], ◌∷◌, List, Some, IsTrue};
ghost use Rattle.archive_terms.specs.Archive.{frame_time, seal_time, is_from, is_above};
ghost use Rattle.archive_terms.specs.Archive.{is_in_order, is_storable, is_archive};
ghost use Rattle.archive_terms.specs.Archive as terms;
ghost use Rattle.record_form.specs.Entry.{entry_of, entries_of};
ghost use Rattle.record_form.specs.Lent.{lent_entry};
ghost use Rattle.std.specs.Option.{option_or};
ghost use Rattle.gate_journal.specs.Order.{Knows};
ghost use Rattle.gate_journal.specs.Reading.{is_late};

use cds_time::Cds;
use record_form::{Entries, Entry, EntryRef};

/// The last times of an archive, as moments in picoseconds.
#[derive(Clone, Copy, Debug, PartialEq, Eq)]
pub struct Times {
    /// The last frame's, where there is one.
    pub frame: Option<u128>,
    /// The last seal's, where there is one.
    pub seal: Option<u128>,
}

impl Times {
    /// Of no entries.
    pub const NONE: Times = Times {
        frame: None,
        seal: None,
    };

    /// Whether an entry keeps the order behind an archive with these times.
    pub fn admit(&self, entry: &Entry) -> bool
        ensures { result ≡ is_in_order self.now.frame self.now.seal (entry_of entry.now) }
    {
        self.admit_lent(entry.lend())
    }

    // The same of an entry that is lent.
    fn admit_lent(&self, entry: EntryRef<'_>) -> bool
        ensures { result ≡ is_in_order self.now.frame self.now.seal (lent_entry entry.entry) }
    {
        self.admit_frame(frame_time(entry)) && is_from(self.seal, seal_time(entry))
    }

    /// Whether a frame at this moment, where there is one, keeps the order.
    pub fn admit_frame(&self, moment: Option<u128>) -> bool
        ensures { result ≡ (is_from self.now.frame moment && is_above self.now.seal moment) }
    {
        is_from(self.frame, moment) && is_above(self.seal, moment)
    }

    /// The times with an entry behind the others.
    pub fn after(&self, entry: &Entry) -> Times
        ensures frame { result.frame ≡ option_or (frame_time (entry_of entry.now)) self.now.frame }
        ensures seal { result.seal ≡ option_or (seal_time (entry_of entry.now)) self.now.seal }
    {
        self.after_lent(entry.lend())
    }

    // The same of an entry that is lent.
    fn after_lent(&self, entry: EntryRef<'_>) -> Times
        ensures frame { result.frame
            ≡ option_or (frame_time (lent_entry entry.entry)) self.now.frame }
        ensures seal { result.seal
            ≡ option_or (seal_time (lent_entry entry.entry)) self.now.seal }
    {
        Times {
            frame: frame_time(entry).or(self.frame),
            seal: seal_time(entry).or(self.seal),
        }
    }

    // The times with an entry behind the others, or none where it breaks the order.
    pub(crate) fn with(self, entry: EntryRef<'_>) -> Option<Times>
        requires { IsTrue (is_storable (lent_entry entry)) }
        ensures { (earlier : List terms.Entry) → Knows earlier (Some self)
            → Knows (earlier ++ lent_entry entry.entry ∷ []) result }
    {
        archive_terms::laws::follows_by_last_times();
        archive_terms::laws::archive_grows();
        if !self.admit_lent(entry) {
            return None;
        }
        Some(self.after_lent(entry))
    }

    // Whether a frame's time, where there is one, breaks the order behind the others.
    pub(crate) fn is_late(&self, ert: Option<Cds>) -> bool
        ensures { (earlier : List terms.Entry) → Knows earlier (Some self.now)
            → result ≡ is_late earlier ert }
    {
        archive_terms::laws::follows_by_last_times();
        match ert {
            Some(ert) => !self.admit_frame(ert.moment()),
            None => false,
        }
    }
}

/// Whether entries with a batch behind them are an archive. It costs as much as there are of both.
pub fn follows(entries: &Entries, batch: &Entries) -> bool
    ensures { result ≡ is_archive (entries.now ++ batch.now) }
{
    let times = pass(Some(Times::NONE), entries.as_slice());
    pass(times, batch.as_slice()).is_some()
}

/// The times of an archive with entries behind it, or none where that is no archive.
pub fn pass(before: Option<Times>, entries: &[Entry]) -> Option<Times>
    ensures { (earlier : List terms.Entry) → Knows earlier before
        → Knows (earlier ++ entries_of entries.now) result }
{
    let mut times = before;
    for entry in entries {
        times = next(times, entry);
    }
    times
}

fn next(before: Option<Times>, entry: &Entry) -> Option<Times>
    ensures { (earlier : List terms.Entry) → Knows earlier before
        → Knows (earlier ++ entry_of entry.now ∷ []) result }
{
    archive_terms::laws::archive_grows();
    let times = before?;
    if !entry.is_storable() {
        return None;
    }
    times.with(entry.lend())
}

fn frame_time(entry: EntryRef<'_>) -> Option<u128>
    ensures { result ≡ frame_time (lent_entry entry.entry) }
{
    match entry {
        EntryRef::Frame { ert, .. } => ert.moment(),
        _ => None,
    }
}

fn seal_time(entry: EntryRef<'_>) -> Option<u128>
    ensures { result ≡ seal_time (lent_entry entry.entry) }
{
    match entry {
        EntryRef::Seal { at } => at.moment(),
        _ => None,
    }
}

fn is_from(earlier: Option<u128>, later: Option<u128>) -> bool
    ensures { result ≡ is_from earlier later }
{
    match (earlier, later) {
        (Some(earlier), Some(later)) => earlier <= later,
        _ => true,
    }
}

fn is_above(earlier: Option<u128>, later: Option<u128>) -> bool
    ensures { result ≡ is_above earlier later }
{
    match (earlier, later) {
        (Some(earlier), Some(later)) => earlier < later,
        _ => true,
    }
}
