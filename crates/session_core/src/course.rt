// Whether and how a session goes on.

use crate::ended::Ended;

/// Whether and how a session goes on.
#[derive(Clone, Copy)]
pub enum Course {
    /// It handles messages.
    Going,
    /// It handles no message any more, and ends so once its block was taken whole.
    Closing(Ended),
    /// It ended so.
    Over(Ended),
    /// A poll or an offer of this round failed. The link isn't called again, and the session ends
    /// with the round.
    LinkFailing,
    /// It ended so: a poll or an offer of it failed.
    LinkFailed,
    /// A step of it wanted memory. It does nothing any more.
    Spent,
}
