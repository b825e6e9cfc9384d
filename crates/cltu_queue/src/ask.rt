// What a session asks of the station's book.

use crate::cltu::Cltu;

/// What a session asks in a round.
#[derive(Debug, Drop, PartialEq, Eq)]
pub enum Ask {
    /// Nothing, though a notice is taken.
    Nothing,
    /// Nothing, and no notice is taken.
    Quiet,
    /// To bind a service instance.
    Bind {
        /// The instance's place in the site's list.
        instance: u32,
    },
    /// To free the bound instance.
    Unbind,
    /// To begin a run of the queue.
    CltuStart {
        /// The identification of its first CLTU.
        first: u32,
    },
    /// To queue a CLTU.
    CltuTransfer {
        /// The CLTU.
        cltu: Cltu,
    },
    /// To end the queue's run.
    CltuStop,
}
