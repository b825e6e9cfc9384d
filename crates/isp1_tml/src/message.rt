// One message, and the octets before its body.
ghost use Rattle.std.specs.Prelude.{◌≡◌, ◌≤◌, length, take, IfOk, IfSome};
ghost use Rattle.isp1_tml.specs.Message.{header};
ghost use Rattle.isp1_tml.specs.Fault.{kind_of};
ghost use Rattle.isp1_tml.specs.Reading.{content, IsSpelled};
ghost use Rattle.isp1_tml.specs.Given.{content_of, front_of};

use crate::tml_fault::{TmlFault, declared_length, fault_of};

/// The octets before a body.
pub const HEADER: usize = 8;

/// The most octets of a PDU.
pub const LONGEST_PDU: u32 = 1_048_576;

/// The octets of a context's body.
pub const CONTEXT_BODY: u32 = 12;

/// One message (CCSDS 913.1-B, transport mapping layer).
#[derive(Clone, Copy, Debug, PartialEq, Eq)]
pub enum Message<'a> {
    /// A PDU's octets, lent.
    Pdu(&'a [u8]),
    /// What the initiator says of heartbeats: the interval in seconds, and the dead factor.
    Context { interval: u16, factor: u16 },
    /// A sign of life.
    Heartbeat,
}

/// The eight octets before a body of `length` octets: kind 1 is a PDU, 2 a context, 3 a heartbeat.
pub fn head(kind: u8, length: u32) -> [u8; 8]
    requires from { 1 ≤ kind }
    requires to { kind ≤ 3 }
    ensures { result ≡ header kind length }
{
    let [a, b, c, d] = length.to_be_bytes();
    [kind, 0, 0, 0, a, b, c, d]
}

// How many octets the message in front has, or none where less than a whole message came; or why
// the octets, with `place` before them, are refused.
pub(crate) fn front_of(octets: &[u8], place: u64) -> Result<Option<usize>, TmlFault>
    ensures exact { result ≡ front_of place octets.now }
    ensures spelled { IfOk result (λ o. IfSome o (λ size.
        (size ≤ length octets.now) × IsSpelled (take size octets.now))) }
{
    if let Some(fault) = fault_of(octets, place) {
        return Err(fault);
    }
    let Some(length) = declared_length(octets) else {
        return Ok(None);
    };
    let size = HEADER + length as usize;
    if octets.len() < size {
        return Ok(None);
    }
    Ok(Some(size))
}

// The message that is spelled by these octets.
pub(crate) fn message_of(octets: &[u8]) -> Message<'_>
    requires header { 8 ≤ length octets.now }
    requires context { kind_of octets.now ≡ 2 → 20 ≤ length octets.now }
    ensures { content_of result ≡ content octets.now }
{
    let body = &octets[HEADER..];
    match octets[0] {
        1 => Message::Pdu(body),
        2 => Message::Context {
            interval: u16::from_be_bytes([body[8], body[9]]),
            factor: u16::from_be_bytes([body[10], body[11]]),
        },
        _ => Message::Heartbeat,
    }
}
