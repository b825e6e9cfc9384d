// Why a call of the lock was refused.

use std::alloc::{AllocError, AllocFailed};
use std::error::Error;
use std::fmt;

/// Why a call of the lock was refused: memory was wanted and refused.
#[derive(Clone, Copy, Debug, PartialEq, Eq)]
pub enum LockFault {
    Memory,
}

impl fmt::Display for LockFault {
    fn fmt<W: fmt::Write>(&self, f: &mut fmt::Formatter<W>) -> fmt::Result {
        f.write_str("out of memory")
    }
}

impl Error for LockFault {}

impl From<AllocError> for LockFault {
    fn from(_: AllocError) -> LockFault {
        LockFault::Memory
    }
}

impl<T: Drop> From<AllocFailed<T>> for LockFault {
    fn from(_: AllocFailed<T>) -> LockFault {
        LockFault::Memory
    }
}

impl From<LockFault> for AllocError {
    fn from(_: LockFault) -> AllocError {
        AllocError
    }
}
