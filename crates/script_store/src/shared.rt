// Entries whose octets several hold.
ghost use Rattle.std.specs.Prelude.{◌≡◌, ◌∷◌, ◌++◌, [], IfOk, OnOk, OnErr};
ghost use Rattle.record_form.specs.Entry.{entry_of, entries_of};

use octet_core::Memory;
use record_form::{Entries, Entry};
use std::alloc::Global;

/// A second holder of an entry's octets.
pub fn share(entry: &Entry) -> Result<Entry, Memory>
    ensures { IfOk result (λ second. second ≡ entry.now) }
{
    Ok(entry.clone()?)
}

// Second holders of entries' octets.
pub fn share_all(alloc: Global, entries: &[Entry]) -> Result<Entries, Memory>
    ensures { IfOk result (λ shared. shared ≡ entries_of entries.now) }
{
    let mut shared = Entries::new(alloc);
    for entry in entries {
        push(&mut shared, share(entry)?)?;
    }
    Ok(shared)
}

/// Puts an entry behind others.
pub fn push(entries: &mut Entries, entry: Entry) -> Result<(), Memory>
    ensures ok { OnOk result (entries.new ≡ entries.old ++ entry_of entry ∷ []) }
    ensures err { OnErr result (entries.new ≡ entries.old) }
{
    match entries.push(entry) {
        Ok(()) => Ok(()),
        Err(_) => Err(Memory),
    }
}
