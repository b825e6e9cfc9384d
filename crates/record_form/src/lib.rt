// Entries of the archive: received frames, losses of frame synchronisation, changes of the
// production status and seals; and their octets in a file.
//
// Contracts see an entry as `archive_terms` has it (`entry_of`), and a list of entries as the list
// of these. Each entry that an archive may hold has one spelling, and is read exactly where that
// stands. `laws` says so, and that what is written is read back whatever follows it.
//
// Reading takes the fields that stand before a frame's octets and lends those (`EntryRef`); an
// `Entry` keeps its octets, so where one is read they are copied once, into the vector that keeps
// them. Writing copies each octet once. `entry_length` costs the same for
// each entry.
#![tactic(auto)]

mod entries;
mod entry;
mod entry_ref;
mod fault;
mod fields;
mod kind;
pub mod laws;
mod reading;
mod writing;

pub use entries::Entries;
pub use entry::Entry;
pub use entry_ref::EntryRef;
pub use fault::EntryFault;
pub use reading::{read_entry, read_entry_at, read_entry_ref_at, read_ert_at};
pub use writing::{LONGEST_ENTRY, entry_length, write_entry};
