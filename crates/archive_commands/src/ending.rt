// How a reading of a file ended.

/// How a reading of a file ended whose entries were listed.
#[derive(Clone, Copy, Debug, PartialEq, Eq)]
pub enum Ending {
    /// All of it was read.
    Whole,
    /// At the gate at this place it is no longer of its form, which it had when it was checked.
    Changed { place: u64 },
    /// The disk failed.
    DiskFault,
}
