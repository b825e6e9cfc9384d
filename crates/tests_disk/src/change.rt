// What changes a file.

use octet_core::Octets;

/// A call of a file that took effect.
#[derive(Debug, Drop)]
pub enum Change {
    /// A write of so many octets at this place began with these.
    Begun {
        place: u64,
        count: u64,
        octets: Octets,
    },
    /// It went on with these.
    WentOn {
        place: u64,
        octets: Octets,
    },
    /// The file was cut to this size.
    Cut {
        size: u64,
    },
    /// All was synced.
    Synced,
}
