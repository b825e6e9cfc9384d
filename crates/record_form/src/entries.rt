// A list of entries.
ghost use Rattle.std.specs.Prelude.{◌≡◌, ◌≤◌, [], ◌∷◌, ◌++◌, length, take, drop, OnOk, OnErr, IfOk};
ghost use Rattle.std.specs.Prelude.{IfErr};
ghost use Rattle.record_form.specs.Entry.{entry_of, entries_of};

use crate::Entry;
use octet_core::Memory;
use std::alloc::Global;
use std::marker::Model;

/// Entries in order, seen by contracts as the list of them in the archive's terms.
#[derive(Debug, Drop)]
pub struct Entries {
    held: Vec<Entry>,
}

impl Model for Entries {
    ghost use Rattle.std.specs.Prelude.{List, vec_items};
    ghost use Rattle.archive_terms.specs.Archive.{Entry};
    ghost use Rattle.record_form.specs.Entry.{entries_of};

    ghost Value = { List Entry };

    ghost view = { λ entries. entries_of (vec_items entries.held) };
}

impl Entries {
    /// No entries. It takes no memory.
    pub fn new(alloc: Global) -> Entries
        ensures { result ≡ [] }
    {
        Entries {
            held: Vec::new(alloc),
        }
    }

    /// Puts an entry behind the others.
    pub fn push(&mut self, entry: Entry) -> Result<(), Memory>
        ensures ok { OnOk result (self.new ≡ self.old ++ entry_of entry ∷ []) }
        ensures err { OnErr result (self.new ≡ self.old) }
    {
        self.held.push(entry)?;
        Ok(())
    }

    /// Puts an entry behind the others, or hands it back where memory is refused.
    pub fn try_push(&mut self, entry: Entry) -> Result<(), Entry>
        ensures ok { OnOk result (self.new ≡ self.old ++ entry_of entry ∷ []) }
        ensures err { OnErr result (self.new ≡ self.old) }
        ensures back { IfErr result (λ back. back ≡ entry) }
    {
        self.held.push(entry).map_err(|refused| refused.value)
    }

    /// Takes off the entries from this one on, with no copy of them. After want of memory all stay.
    pub fn split_off(&mut self, at: usize) -> Result<Entries, Memory>
        requires { at ≤ length self.old }
        ensures front { OnOk result (self.new ≡ take at self.old) }
        ensures rest { IfOk result (λ rest. rest ≡ drop at self.old) }
        ensures err { OnErr result (self.new ≡ self.old) }
    {
        let held = self.held.split_off(at)?;
        Ok(Entries { held })
    }

    /// The entries.
    pub fn as_slice(&self) -> &[Entry]
        ensures { entries_of result.now ≡ self.now }
    {
        &self.held
    }

    /// The entries, to be handed on one by one.
    pub fn into_vec(self) -> Vec<Entry>
        ensures { entries_of result.items ≡ self }
    {
        self.held
    }

    /// How many there are.
    pub fn len(&self) -> usize
        ensures { result ≡ length self.now }
    {
        self.held.len()
    }
}
