// Why entries aren't published.

use thiserror::Error;

/// Why entries aren't published.
#[derive(Clone, Copy, Debug, PartialEq, Eq, Error)]
pub enum PublishFault {
    /// The published entries followed by these are no archive.
    #[error("the entries don't follow the published ones")]
    Foreign,
    /// Memory was refused.
    #[error("out of memory")]
    Memory,
}
