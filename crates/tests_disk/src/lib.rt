// Tests of disks over files: a file in memory that moves its octets in parts and tells them, and
// files of the system.
//
// `PartFile` is a double, which shows that a file can tell and meet every clause of `RawFile`, so
// that the disk over it meets those of `Disk`.
#![tactic(auto)]

mod change;
#[cfg(test)]
mod files;
mod part_file;
#[cfg(test)]
mod parts;

pub use change::Change;
pub use part_file::PartFile;
