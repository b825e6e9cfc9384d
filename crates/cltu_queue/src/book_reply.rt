// What the station's book answers a session.

use crate::room::Room;
use fcltu_numbers::{CltuStartDiagnostic, CltuTransferDataDiagnostic};

/// What the book answers.
#[derive(Clone, Copy, Debug, PartialEq, Eq)]
pub enum BookReply {
    /// Nothing was asked.
    Nothing,
    /// The instance is bound.
    Bound,
    /// Another door has the instance.
    AlreadyBound,
    /// The instance is free.
    Unbound,
    /// A run began.
    Started {
        /// The moment, in picoseconds since 1958-01-01.
        now: u128,
    },
    /// No run began.
    StartRefused {
        /// Why.
        diagnostic: CltuStartDiagnostic,
    },
    /// The CLTU is queued.
    Taken {
        /// The queue with it.
        room: Room,
    },
    /// The CLTU isn't queued.
    Rejected {
        /// Why.
        diagnostic: CltuTransferDataDiagnostic,
        /// The queue, which is as it was.
        room: Room,
    },
    /// The run ended.
    Stopped,
    /// The ask doesn't fit what the door has bound.
    Lost,
}
