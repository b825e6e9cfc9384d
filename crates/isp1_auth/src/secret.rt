use crate::hash::Hash;

/// What the two sides of an association know of the one that sends, lent from the site. It has no
/// `Debug`, so that no password gets into a text.
#[derive(Clone, Copy)]
pub struct Secret<'a> {
    /// The sender's name.
    pub name: &'a [u8],
    /// The sender's password.
    pub pass: &'a [u8],
    pub hash: Hash,
    /// How far the time of credentials may be from now, either way, in seconds.
    pub credential_age: u32,
}
