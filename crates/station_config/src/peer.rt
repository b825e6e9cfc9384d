// Those who may bind.

use crate::level::Level;
use octet_core::Octets;

/// One who may bind. It has no `Debug`, so that no password gets into a text.
#[derive(Drop)]
pub struct Peer {
    /// 3 to 16 characters from 21 to 7E.
    pub name: Octets,
    /// Which messages carry credentials.
    pub level: Level,
    /// Whether credentials have digests by SHA-256; by SHA-1 otherwise.
    pub sha256: bool,
    /// How far the time of credentials may be from now, either way: 1 to 86,400 seconds.
    pub credential_age: u32,
    /// The peer's password, 6 to 16 octets.
    pub pass: Octets,
}
