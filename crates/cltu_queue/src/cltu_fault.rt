// Why a CLTU isn't queued.

use crate::room::Room;
use fcltu_numbers::CltuTransferDataDiagnostic;
use octet_core::Memory;
use thiserror::Error;

/// Why a CLTU isn't queued.
#[derive(Clone, Copy, Debug, PartialEq, Eq, Error)]
pub enum CltuFault {
    /// The user is answered negatively.
    #[error("the CLTU is refused: {diagnostic}")]
    Refused {
        /// Why.
        diagnostic: CltuTransferDataDiagnostic,
        /// The queue, which is as it was.
        room: Room,
    },
    /// Memory was refused, and the queue is as it was.
    #[error("out of memory")]
    Memory,
}

impl From<Memory> for CltuFault {
    ghost use Rattle.std.specs.Prelude.{◌≡◌};
    ghost use Rattle.cltu_queue.specs.declared.cltu_fault.CltuFault.TheVariants.{Memory};

    ghost from_gives = { λ _ fault. fault ≡ Memory };

    fn from(_: Memory) -> CltuFault {
        CltuFault::Memory
    }
}
