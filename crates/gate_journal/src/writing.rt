// The octets of a batch.
ghost use Rattle.std.specs.Prelude.{◌≡◌, ◌≤◌, ◌<◌, ◌*◌, ◌^◌, ◌++◌, IsTrue, OnOk, length};
ghost use Rattle.std.specs.List.{list_all};
ghost use Rattle.archive_terms.specs.Archive.{is_storable};
ghost use Rattle.record_form.specs.declared.writing.TheConstants.{LONGEST_ENTRY};
ghost use Rattle.record_form.specs.Entry.{entry_of, entries_of};
ghost use Rattle.gate_journal.specs.File.{entries_octets};
ghost use Rattle.gate_journal.specs.JournalState.{closed_batch};

use crate::CLOSED;
use octet_core::{Memory, Octets};
use record_form::{Entry, entry_length, write_entry};

/// How many octets entries have, one after another.
pub fn entries_length(entries: &[Entry]) -> u64
    requires storable { IsTrue (list_all is_storable (entries_of entries.now)) }
    requires most { length entries.now ≤ 256 }
    ensures exact { result ≡ length (entries_octets (entries_of entries.now)) }
    ensures bound { result ≤ LONGEST_ENTRY * 256 }
{
    let mut size = 0;
    for entry in entries {
        size += entry_length(entry);
    }
    size
}

/// Puts a batch of so many octets of entries behind what is there, and the next gate, closed.
pub fn write_batch(entries: &[Entry], size: u64, into: &mut Octets) -> Result<(), Memory>
    requires storable { IsTrue (list_all is_storable (entries_of entries.now)) }
    requires most { length entries.now ≤ 256 }
    requires size { size ≡ length (entries_octets (entries_of entries.now)) }
    requires fits { size < 2 ^ 32 }
    ensures { OnOk result (into.new ≡ into.old ++ closed_batch (entries_of entries.now)) }
{
    into.append(&(size as u32).to_be_bytes())?;
    into.append(&(entries.len() as u16).to_be_bytes())?;
    write_entries(entries, into)?;
    into.append(&[CLOSED])?;
    Ok(())
}

fn write_entries(entries: &[Entry], into: &mut Octets) -> Result<(), Memory>
    requires { IsTrue (list_all is_storable (entries_of entries.now)) }
    ensures { OnOk result (into.new ≡ into.old ++ entries_octets (entries_of entries.now)) }
{
    for entry in entries {
        write_entry(entry, into)?;
    }
    Ok(())
}
