// The room of the queue.

/// What a user is told of the queue in each answer to a TRANSFER-DATA.
#[derive(Clone, Copy, Debug, PartialEq, Eq)]
pub struct Room {
    /// The identification that is expected next, or 4,294,967,295 where there is none.
    pub next: u32,
    /// How many octets further CLTUs may have.
    pub free: u32,
}
