// Why an entry isn't taken, and why an archive is refused.

use thiserror::Error;

/// Why an archive isn't opened or reopened, or its waiting entries aren't stored. A place counts
/// from the file's first octet.
#[derive(Clone, Copy, Debug, PartialEq, Eq, Error)]
pub enum ArchiveFault {
    /// The octet of the header at this place is another one or missing.
    #[error("no journal: octet {place} isn't the header's")]
    NotJournal { place: u64 },
    /// Here the file stops being of its form, or breaks the archive's order of times.
    #[error("damaged at octet {place}")]
    Damaged { place: u64 },
    /// The disk failed.
    #[error("disk fault")]
    DiskFault,
    /// A store has failed or a reopen was refused, and none has succeeded since.
    #[error("stale")]
    Stale,
    /// The file holds `found` entries, and `expected` are acknowledged: someone else wrote to it.
    #[error("changed: {expected} entries expected, {found} found")]
    Changed { expected: u64, found: u64 },
    /// Memory was wanted and refused.
    #[error("out of memory")]
    Memory,
}

/// Why an entry isn't taken, in the order in which it is tried.
#[derive(Clone, Copy, Debug, PartialEq, Eq, Error)]
pub enum OfferFault {
    /// A frame's time is below the last frame's or not above the last seal's, or a seal's is below
    /// the last seal's.
    #[error("backward")]
    Backward,
    /// A frame has more than 65,536 octets.
    #[error("too long")]
    TooLong,
    /// 256 entries wait.
    #[error("256 entries wait")]
    Waiting,
    /// The entry wants `need` octets, and `free` are free below the capacity, or none where
    /// 4,194,304 entries are stored or waiting.
    #[error("full: {need} octets wanted, {free} free")]
    Full { need: u64, free: u64 },
    /// Memory was wanted and refused.
    #[error("out of memory")]
    Memory,
}
