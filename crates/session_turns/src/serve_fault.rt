// Why a connection's worker stops before its session has ended.

use thiserror::Error;

/// Why a connection's worker stops before its session has ended.
#[derive(Clone, Copy, Debug, PartialEq, Eq, Error)]
pub enum ServeFault {
    /// A poll or an offer failed.
    #[error("the link failed")]
    LinkFault,
    /// Two turns are left before a round: one for the door's quit, one for the worker's end.
    #[error("turns spent")]
    TurnsSpent,
    /// Memory was wanted and refused.
    #[error("out of memory")]
    Memory,
}
