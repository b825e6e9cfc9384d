// What a take finds.

use octet_core::Octets;

/// What a take finds.
#[derive(Debug, Drop, PartialEq, Eq)]
pub enum Taken {
    /// Nothing may radiate.
    Idle,
    /// The next CLTU may radiate from a moment on.
    Waits {
        /// The moment, in picoseconds since 1958-01-01.
        until: u128,
    },
    /// The next CLTU's latest time has passed, and all that waited was discarded.
    Expired {
        /// Its identification.
        id: u32,
    },
    /// A CLTU that is to be radiated now.
    Radiate {
        /// The number of its run.
        run: u64,
        /// Its identification.
        id: u32,
        /// Its octets.
        octets: Octets,
    },
}
