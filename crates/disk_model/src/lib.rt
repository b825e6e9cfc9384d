// A disk, what it may hold at any moment, and a disk in memory that stops and fails as it is told.
//
// An image of a disk is what may stand on it after a crash. `Disk` says, for each call, what is
// pending after it, also where it fails, and which images there are at every moment since it began.
// A disk that doesn't tell what is pending has no images to speak of, and only its size, its count
// of faults and what it tells of its calls are claimed. `laws` says what the definitions mean.
// `write_synced` is a write and a sync in one, at any disk.
//
// `MemoryDisk` tells all of its octets. It is a double for tests and scripts: it counts its writes,
// cuts and syncs, logs those that took effect, fails and stops as its owner steers it, and leaves
// what a pick says. A call costs as much as the octets that it moves. A restart costs as much as
// the disk holds and as was written since the one before; all that was ever written is kept in
// memory. `DiskOver` is a disk over any `RawFile`, and tells its octets where the file does.
// `FileDisk` is the one over a file of the system, which tells none.
#![tactic(auto)]

mod call;
mod disk;
mod event;
mod file_disk;
pub mod laws;
mod memory_disk;
mod orders;
mod pieces;
mod raw_file;
mod synced;
mod system_file;

pub use call::Call;
pub use disk::Disk;
pub use event::Event;
pub use file_disk::{DiskOver, FileDisk};
pub use memory_disk::MemoryDisk;
pub use orders::{Orders, Pick, Stop};
pub use raw_file::RawFile;
pub use synced::write_synced;
pub use system_file::SystemFile;
