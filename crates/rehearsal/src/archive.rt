// The archive of a rehearsal.
ghost use Rattle.std.specs.Prelude.{◌≡◌, ◌<◌, ◌≤◌, ◌-◌, [], ◌∷◌, ◌++◌, IfOk, OnOk, OnErr};
ghost use Rattle.archive_terms.specs.Archive.{IsArchive};
ghost use Rattle.archive_terms.specs.Glimpse.{glimpse};
ghost use Rattle.archive_terms.specs.Archive as terms;
ghost use Rattle.record_form.specs.Entry.{entry_of};
ghost use Rattle.frame_select.specs.Glimpse.{glimpse_of, as_said};
ghost use Rattle.frame_select.specs.Want.{want_of};
ghost use Rattle.rehearsal.specs.Frames as rehearsal;
ghost use Rattle.rehearsal.specs.Frames.{frames_stored, time_at};

use crate::frames::{Parts, time};
use archive_index::{Index, Shelf, Steps};
use frame_select::{Glimpse, Want};
use octet_core::Memory;
use record_form::Entry;
use station_desk::Looks;
use std::alloc::Global;
use std::marker::{Brand, Model};
use std::sync::ledger::{Blank, Ledger};

/// Entries in their order, with the index of them.
#[derive(Drop)]
pub struct Archive {
    alloc: Global,
    entries: Shelf<Entry>,
    index: Index,
    // How many of them are frames.
    frames: usize,
}

impl Model for Archive {
    ghost use Rattle.std.specs.Prelude.{List, ◌≡◌};
    ghost use Rattle.archive_terms.specs.Archive.{Entry};
    ghost use Rattle.record_form.specs.Entry.{entries_of};
    ghost use Rattle.archive_index.specs.IndexState.{Indexes};
    ghost use Rattle.rehearsal.specs.Frames.{frames_stored};

    ghost Value = { List Entry };

    ghost view = { λ a. entries_of a.entries };

    ghost invariant = { λ a. Indexes a.index (entries_of a.entries)
        × (a.frames ≡ frames_stored (entries_of a.entries)) };
}

impl Archive {
    /// Of no entries.
    pub fn new(alloc: Global) -> Result<Archive, Memory>
        ensures { IfOk result (λ archive. archive ≡ []) }
    {
        Ok(Archive {
            alloc,
            entries: Shelf::new(alloc)?,
            index: Index::new(alloc)?,
            frames: 0,
        })
    }

    /// `n` frames, and a seal at the last one's time.
    pub fn rehearsed(alloc: Global, n: u32) -> Result<Archive, Memory>
        requires some { 1 ≤ n }
        requires few { n ≤ 20000 }
        ensures { IfOk result (λ archive. archive ≡ rehearsal.archive n) }
    {
        let parts = Parts::new(alloc)?;
        let mut archive = Archive::new(alloc)?;
        for i in 0..n {
            archive.store(parts.frame(i)?)?;
        }
        archive.store(seal(n))?;
        Ok(archive)
    }

    // Stores an entry behind the others.
    fn store(&mut self, entry: Entry) -> Result<(), Memory>
        ensures ok { OnOk result (self.new ≡ self.old ++ entry_of entry ∷ []) }
        ensures err { OnErr result (self.new ≡ self.old) }
    {
        // There is no room for so many entries.
        let Some(frames) = self.frames.checked_add(usize::from(is_frame(&entry))) else {
            return Err(Memory);
        };
        let mark = self.index.mark();
        self.index.add(&entry)?;
        match self.entries.push(entry) {
            Ok(()) => {
                self.frames = frames;
                Ok(())
            }
            Err(entry) => {
                self.index.go_back(&mark, &[entry]);
                Err(Memory)
            }
        }
    }

    /// How many frames there are.
    pub fn frames(&self) -> usize
        ensures { result ≡ frames_stored self.now }
    {
        self.frames
    }

    // A look, on a counter that is made of a blank ledger.
    fn look_from<L: Ledger>(&self, want: &Want, blank: Blank) -> Result<Glimpse, Memory>
        requires archive { IsArchive self.now }
        requires name { blank.name ≡ L.name }
        requires parts { blank.parts ≡ L.parts }
        requires one { 0 < blank.parts }
        ensures { IfOk result (λ g. glimpse_of g
            ≡ as_said (glimpse self.now (want_of want.now))) }
    {
        let mut steps = Steps::<L>::new(blank);
        self.index
            .glimpse(self.alloc, &self.entries, want, &mut steps)
    }
}

impl Looks for Archive {
    ghost entries = { λ archive. archive };

    fn look(&self, want: &Want) -> Result<Glimpse, Memory> {
        self.look_from::<Brand>(want, Blank::new(1))
    }
}

// The seal behind `n` frames.
fn seal(n: u32) -> Entry
    requires some { 1 ≤ n }
    requires few { n ≤ 20000 }
    ensures { entry_of result ≡ terms.seal (time_at (n - 1)) }
{
    Entry::Seal { at: time(n - 1) }
}

fn is_frame(entry: &Entry) -> bool
    ensures { result ≡ rehearsal.is_frame (entry_of entry.now) }
{
    matches!(entry, Entry::Frame { .. })
}
