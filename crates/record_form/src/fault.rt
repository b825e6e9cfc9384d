// Why octets in the place of an entry are refused.
ghost use Rattle.std.specs.Prelude.{◌≡◌};
ghost use Rattle.record_form.specs.declared.fault.EntryFault.TheVariants.{Memory};

use octet_core::Memory;
use thiserror::Error;

/// The first fault of octets in the place of an entry, in reading order, or want of memory. A place
/// counts from the entry's first octet.
#[derive(Clone, Copy, Debug, PartialEq, Eq, Error)]
pub enum EntryFault {
    /// The octets end inside the entry.
    #[error("the entry is cut")]
    Cut,
    /// The first octet is the number of no kind of entry.
    #[error("no kind of entry: {found:#04x}")]
    BadKind { found: u8 },
    /// The field that begins here is out of its range.
    #[error("a field out of its range at octet {place}")]
    BadField { place: usize },
    /// Memory was wanted and refused.
    #[error("out of memory")]
    Memory,
}

impl From<Memory> for EntryFault {
    ghost from_gives = { λ _ fault. fault ≡ Memory };

    fn from(_: Memory) -> EntryFault {
        EntryFault::Memory
    }
}
