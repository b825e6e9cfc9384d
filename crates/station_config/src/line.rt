// What a line says.

use crate::heartbeat::Heartbeat;
use crate::instance_line::InstanceLine;
use crate::peer::Peer;
use octet_core::Octets;

/// What a line says.
#[derive(Drop)]
pub(crate) enum Line {
    /// `provider NAME`.
    Provider(Octets),
    /// `password HEX`.
    Password(Octets),
    /// `capacity N`.
    Capacity(u32),
    /// `heartbeat A B C D`.
    Beat(Heartbeat),
    /// `versions N..`.
    Versions(Octets),
    /// `peer NAME LEVEL HASH DELAY HEX`.
    Peer(Peer),
    /// `raf ..`, `rcf ..` or `cltu ..`.
    Instance(InstanceLine),
}
