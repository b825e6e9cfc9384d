/// The hash function of a peer's credentials (FIPS 180-4). Which one is this product's own choice,
/// made for each peer.
#[derive(Clone, Copy, Debug, PartialEq, Eq)]
pub enum Hash {
    /// A digest of 20 octets.
    Sha1,
    /// A digest of 32 octets.
    Sha256,
}
