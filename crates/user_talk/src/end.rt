// How a talk ends.

use user_core::Status;

/// How a talk ends, before its last line is written.
#[derive(Clone, Copy, Debug, PartialEq, Eq)]
pub enum End {
    /// The user ended. It may be that the last poll heard the peer's close.
    Over { status: Status, closed: bool },
    /// As many polls were made as there may be.
    Spent,
    /// A poll or an offer failed.
    LinkFault,
    /// The output failed.
    WriteFault,
    /// Memory was refused.
    Memory,
}
