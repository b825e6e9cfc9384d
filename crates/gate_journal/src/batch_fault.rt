// Why the next batch of a file isn't read.

use thiserror::Error;

/// Why the next batch of a file isn't read.
#[derive(Clone, Copy, Debug, PartialEq, Eq, Error)]
pub enum BatchFault {
    /// The file isn't of its form there. What is at fault, and where, `Journal::recover` tells.
    #[error("unfit")]
    Unfit,
    /// The disk failed.
    #[error("disk fault")]
    DiskFault,
    /// Memory was wanted and refused.
    #[error("out of memory")]
    Memory,
}
