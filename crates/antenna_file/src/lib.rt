// An antenna that writes to a file.
//
// `FileAntenna` is a thin adapter, and tells nothing of what it sent. Proved is its count of faults.
// Trusted is what std and the system do: that what is written is appended to the file that was
// named, and kept once it is synced.
//
// It reports each call of a file that fails, with the system's reason. A call costs two writes and
// two syncs.
#![tactic(auto)]

mod file_antenna;
mod kept_file;

pub use file_antenna::FileAntenna;
