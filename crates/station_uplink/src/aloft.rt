// What is in the air.

/// A CLTU that was sent, and whose radiation goes on.
#[derive(Clone, Copy, Debug, PartialEq, Eq)]
pub struct Aloft {
    /// The number of its run.
    pub run: u64,
    /// Its identification.
    pub id: u32,
}
