// The counted calls of a disk.

use octet_core::Octets;

/// A counted call of a disk.
#[derive(Debug, Drop)]
pub enum Call {
    /// These octets were written at this place.
    Write { place: u64, octets: Octets },
    /// The disk was cut to this size.
    Cut { size: u64 },
    /// All was synced.
    Sync,
}
