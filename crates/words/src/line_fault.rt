// Why a line with causes gives no value.

use crate::cause::Cause;
use thiserror::Error;

/// Why a line gives no value.
#[derive(Clone, Copy, Debug, PartialEq, Eq, Error)]
pub enum LineFault {
    /// It is outside the grammar.
    #[error("{0}")]
    Line(Cause),
    /// There was no memory.
    #[error("out of memory")]
    Memory,
}
