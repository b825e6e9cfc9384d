// Why a journal is refused.
ghost use Rattle.std.specs.Prelude.{◌≡◌};
ghost use Rattle.gate_journal.specs.declared.fault.JournalFault.TheVariants.{DiskFault, Memory};

use octet_core::Failed;
use std::alloc::AllocError;
use thiserror::Error;

/// Why a journal isn't made or recovered, or a batch isn't appended. A place counts from the file's
/// first octet.
#[derive(Clone, Copy, Debug, PartialEq, Eq, Error)]
pub enum JournalFault {
    /// The octet of the header at this place is another one or missing.
    #[error("no journal: octet {place} isn't the header's")]
    NotJournal { place: u64 },
    /// Here the file stops being of its form, or breaks the archive's order of times.
    #[error("damaged at octet {place}")]
    Damaged { place: u64 },
    /// The batch wants `need` octets, and `free` are free below the capacity.
    #[error("full: {need} octets wanted, {free} free")]
    Full { need: u64, free: u64 },
    /// The disk failed.
    #[error("disk fault")]
    DiskFault,
    /// An append answered `DiskFault`, and the disk wasn't recovered since.
    #[error("stale")]
    Stale,
    /// Memory was wanted and refused.
    #[error("out of memory")]
    Memory,
}

impl From<Failed> for JournalFault {
    ghost from_gives = { λ _ fault. fault ≡ DiskFault };

    fn from(_: Failed) -> JournalFault {
        JournalFault::DiskFault
    }
}

impl From<octet_core::Memory> for JournalFault {
    ghost from_gives = { λ _ fault. fault ≡ Memory };

    fn from(_: octet_core::Memory) -> JournalFault {
        JournalFault::Memory
    }
}

impl From<AllocError> for JournalFault {
    ghost from_gives = { λ _ fault. fault ≡ Memory };

    fn from(_: AllocError) -> JournalFault {
        JournalFault::Memory
    }
}
