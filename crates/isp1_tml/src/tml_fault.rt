// Why octets in a message's place are refused.
ghost use Rattle.std.specs.Prelude.{◌≡◌, ◌+◌, ◌<◌, length, IfSome};
ghost use Rattle.isp1_tml.specs.Fault.{capped, first_difference, bad_type, not_zero, bad_length};
ghost use Rattle.isp1_tml.specs.Fault.{bad_context, declared_length, fault_of, is_allowed};

use crate::message::{CONTEXT_BODY, LONGEST_PDU};
use std::error::Error;
use std::fmt;

const PROTOCOL: [u8; 8] = [b'I', b'S', b'P', b'1', 0, 0, 0, 1];

/// Why a connection's octets are refused. A place counts the octets before it since the
/// connection's start, and stands still at `u64::MAX`.
#[derive(Clone, Copy, Debug, PartialEq, Eq)]
pub enum TmlFault {
    /// A kind other than 1, 2 and 3.
    BadType { place: u64 },
    /// One of the three octets after the kind isn't 0; the place of the first such one.
    NotZero { place: u64 },
    /// A context's length other than 12, or a heartbeat's other than 0; the place of the length's
    /// first octet.
    BadLength { place: u64 },
    /// A PDU of more than 1,048,576 octets.
    TooLong { length: u32 },
    /// A context's body that doesn't begin with the protocol's name and version; the place of the
    /// first octet that differs.
    BadContext { place: u64 },
}

impl fmt::Display for TmlFault {
    fn fmt<W: fmt::Write>(&self, f: &mut fmt::Formatter<W>) -> fmt::Result {
        match self {
            TmlFault::BadType { place } => write!(f, "no kind of message at octet {place}"),
            TmlFault::NotZero { place } => write!(f, "no zero at octet {place}"),
            TmlFault::BadLength { place } => write!(f, "no length of its kind at octet {place}"),
            TmlFault::TooLong { length } => write!(f, "a PDU of {length} octets"),
            TmlFault::BadContext { place } => write!(f, "no context of ISP1 at octet {place}"),
        }
    }
}

impl Error for TmlFault {}

// The place this many octets further.
pub(crate) fn further(place: u64, octets: usize) -> u64
    ensures { result ≡ capped (place + octets) }
{
    place.saturating_add(octets as u64)
}

// Where octets that came first differ from those that are wanted.
fn first_difference(octets: &[u8], pattern: &[u8]) -> Option<usize>
    ensures first { result ≡ first_difference octets.now pattern.now }
    ensures within { IfSome result (λ i. i < length pattern.now) }
{
    octets
        .iter()
        .zip(pattern)
        .position(|(octet, want)| octet != want)
}

// The length of the body, once the eight octets of the header came.
pub(crate) fn declared_length(octets: &[u8]) -> Option<u32>
    ensures { result ≡ declared_length octets.now }
{
    match octets {
        [_, _, _, _, a, b, c, d, ..] => Some(u32::from_be_bytes([*a, *b, *c, *d])),
        _ => None,
    }
}

fn is_allowed(kind: u8, length: u32) -> bool
    ensures { result ≡ is_allowed kind length }
{
    match kind {
        1 => length <= LONGEST_PDU,
        2 => length == CONTEXT_BODY,
        _ => length == 0,
    }
}

fn bad_type(octets: &[u8], place: u64) -> Option<TmlFault>
    ensures { result ≡ bad_type place octets.now }
{
    match octets {
        [] | [1..=3, ..] => None,
        _ => Some(TmlFault::BadType { place }),
    }
}

fn not_zero(octets: &[u8], place: u64) -> Option<TmlFault>
    ensures { result ≡ not_zero place octets.now }
{
    let [_, behind @ ..] = octets else {
        return None;
    };
    let i = first_difference(behind, &[0, 0, 0])?;
    Some(TmlFault::NotZero {
        place: further(place, 1 + i),
    })
}

fn bad_length(octets: &[u8], place: u64) -> Option<TmlFault>
    ensures { result ≡ bad_length place octets.now }
{
    let length = declared_length(octets)?;
    let kind = octets[0];
    if is_allowed(kind, length) {
        None
    } else if kind == 1 {
        Some(TmlFault::TooLong { length })
    } else {
        Some(TmlFault::BadLength {
            place: further(place, 4),
        })
    }
}

fn bad_context(octets: &[u8], place: u64) -> Option<TmlFault>
    ensures { result ≡ bad_context place octets.now }
{
    let [2, _, _, _, _, _, _, _, body @ ..] = octets else {
        return None;
    };
    let i = first_difference(body, &PROTOCOL)?;
    Some(TmlFault::BadContext {
        place: further(place, 8 + i),
    })
}

/// The first fault of octets in a message's place, with `place` octets before them.
pub(crate) fn fault_of(octets: &[u8], place: u64) -> Option<TmlFault>
    ensures { result ≡ fault_of place octets.now }
{
    bad_type(octets, place)
        .or_else(|| not_zero(octets, place))
        .or_else(|| bad_length(octets, place))
        .or_else(|| bad_context(octets, place))
}
