// What a user hears in a turn.

/// What a user hears in a turn.
#[derive(Clone, Copy, Debug, PartialEq, Eq)]
pub enum Heard<'a> {
    /// Nothing came.
    Nothing,
    /// These octets of the stream came, behind those of earlier turns.
    Octets(&'a [u8]),
    /// The stream came to its end.
    Closed,
}
