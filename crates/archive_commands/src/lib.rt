// The commands on an archive's file: `init` makes one, and `list` writes the entries of one.
//
// Each takes a disk and hands it back. `specs/Archives.antt` says what they promise of the disk and
// of the output, by the exit code that they answer.
#![tactic(auto)]

mod archive_file;
mod ending;
mod entry_line;
mod listing;

pub use archive_file::{init_archive, list_archive};
