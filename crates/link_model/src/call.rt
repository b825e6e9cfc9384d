// The calls of a link, as a link that tells keeps them.

use octet_core::{Octets, Offer};

/// What a poll heard.
#[derive(Debug, Drop)]
pub enum Heard {
    /// These octets arrived, at least one.
    Arrived(Octets),
    /// Nothing arrived.
    Nothing,
    /// The peer has closed, and nothing more will arrive.
    Closed,
    /// The poll failed.
    Failed,
}

/// A call of a link, with its answer.
#[derive(Debug, Drop)]
pub enum Call {
    /// A poll with space for so many octets, and what it heard.
    Polled { space: usize, heard: Heard },
    /// An offer of these octets, and its answer.
    Offered { octets: Octets, answer: Offer },
}
