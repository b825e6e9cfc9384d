use isp1_auth::Secret;

/// Who signs the items of a buffer, and when. It has no `Debug`, so that no password gets into a
/// text.
#[derive(Clone, Copy)]
pub struct Signer<'a> {
    /// The provider's name and password, and the peer's hash function.
    pub secret: Secret<'a>,
    /// The moment of the round in which the buffer is fixed, in picoseconds since 1958-01-01.
    pub moment: u128,
}
