// What a round comes to.

use crate::ended::Ended;

/// What a round comes to.
#[derive(Clone, Copy)]
pub enum Spoken {
    /// The session goes on.
    Going,
    /// The session ended so. Every later call says the same, and touches neither book nor link.
    Ended(Ended),
    /// A poll or an offer of this session failed. Every later call says the same, and touches
    /// neither book nor link.
    LinkFault,
}
