// What a PDU's outer tag tells.
ghost use Rattle.std.specs.Prelude.{◌≡◌};
ghost use Rattle.assoc_core.specs.OuterTag.{outer_tag};

use ber_core::Reader;

/// What the outer tag of a PDU tells in unbound, where it is judged before anything is decoded.
#[derive(Clone, Copy, Debug, PartialEq, Eq)]
pub enum OuterTag {
    /// A BIND's.
    Bind,
    /// A PEER-ABORT's.
    PeerAbort,
    /// Another one, which is out of place in unbound.
    Other,
    /// No whole tag stands there, so nothing decodes.
    Missing,
}

const BIND: [u8; 2] = [0xbf, 0x64];

const PEER_ABORT: [u8; 2] = [0x9f, 0x68];

impl OuterTag {
    /// The tag at the front of a PDU's octets.
    pub fn of(octets: &[u8]) -> OuterTag
        ensures { result ≡ outer_tag octets.now }
    {
        let Some(identifier) = Reader::new(octets).identifier() else {
            return OuterTag::Missing;
        };
        if identifier == BIND.as_slice() {
            OuterTag::Bind
        } else if identifier == PEER_ABORT.as_slice() {
            OuterTag::PeerAbort
        } else {
            OuterTag::Other
        }
    }
}
