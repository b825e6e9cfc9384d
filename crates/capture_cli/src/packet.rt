// The packets of a capture file.

use crate::checksum::Checksum;
use std::alloc::AllocError;

/// The most octets of a segment: what a packet of IPv4 holds behind its headers.
pub const SEGMENT_OCTETS: usize = 65_495;

/// Appends what a capture file begins with (the format of libpcap, 2.4): its packets are those of
/// Ethernet, of 262,144 octets at most, and their times have microseconds.
pub fn put_head(into: &mut Vec<u8>) -> Result<(), AllocError> {
    into.extend_from_slice(&[0xa1, 0xb2, 0xc3, 0xd4, 0, 2, 0, 4])?;
    into.extend_from_slice(&[0, 0, 0, 0, 0, 0, 0, 0])?;
    into.extend_from_slice(&[0, 4, 0, 0, 0, 0, 0, 1])
}

/// Where a segment stands.
#[derive(Clone, Copy, Debug, PartialEq, Eq)]
pub struct Place {
    /// The line of the transcript, the first one's is 1.
    pub line: u32,
    /// How many segments of the line stand before it.
    pub number: u32,
    /// The connection, 0 to 255.
    pub connection: u8,
    /// The sequence number of its first octet.
    pub sequence: u32,
}

// How long the headers are, of Ethernet, IPv4 and TCP.
const ETHERNET: usize = 14;

const IP: usize = 20;

const TCP: usize = 20;

/// Appends the packet of a segment, of 65,495 octets at most.
pub fn put_packet(place: Place, segment: &[u8], into: &mut Vec<u8>) -> Result<(), AllocError> {
    let octets = &segment[..segment.len().min(SEGMENT_OCTETS)];
    let length = (ETHERNET + IP + TCP + octets.len()) as u32;
    into.extend_from_slice(&place.line.to_be_bytes())?;
    into.extend_from_slice(&place.number.to_be_bytes())?;
    into.extend_from_slice(&length.to_be_bytes())?;
    into.extend_from_slice(&length.to_be_bytes())?;
    put_ethernet(place, into)?;
    put_ip(place, octets.len(), into)?;
    put_tcp(place, octets, into)?;
    into.extend_from_slice(octets)
}

// The head of Ethernet: to the user, from the provider, with IPv4.
fn put_ethernet(place: Place, into: &mut Vec<u8>) -> Result<(), AllocError> {
    into.extend_from_slice(&[2, 0, 0, 0, 0, place.connection])?;
    into.extend_from_slice(&[2, 0, 0, 0, 1, 0])?;
    into.extend_from_slice(&[8, 0])
}

// The addresses of the provider and of the user.
fn provider() -> [u8; 4] {
    [10, 0, 0, 100]
}

fn user(place: Place) -> [u8; 4] {
    [10, 0, 0, place.connection]
}

// The head of IPv4 (RFC 791), before so many octets of a segment.
fn put_ip(place: Place, octets: usize, into: &mut Vec<u8>) -> Result<(), AllocError> {
    let [l0, l1] = length_of(IP + TCP, octets);
    let front = [0x45, 0, l0, l1, 0, 0, 0x40, 0, 64, 6];
    let sum = Checksum::new()
        .add(&front)
        .add(&provider())
        .add(&user(place));
    into.extend_from_slice(&front)?;
    into.extend_from_slice(&sum.octets())?;
    into.extend_from_slice(&provider())?;
    into.extend_from_slice(&user(place))
}

// The head of TCP (RFC 9293), before these octets: from the provider's port, with ACK and PSH.
fn put_tcp(place: Place, octets: &[u8], into: &mut Vec<u8>) -> Result<(), AllocError> {
    let [l0, l1] = length_of(TCP, octets.len());
    let [s0, s1, s2, s3] = place.sequence.to_be_bytes();
    let [from0, from1] = 5_100u16.to_be_bytes();
    let [to0, to1] = 40_000u16
        .saturating_add(u16::from(place.connection))
        .to_be_bytes();
    let front = [
        from0, from1, to0, to1, s0, s1, s2, s3, 0, 0, 0, 1, 0x50, 0x18, 0xff, 0xff,
    ];
    let sum = Checksum::new()
        .add(&provider())
        .add(&user(place))
        .add(&[0, 6, l0, l1])
        .add(&front)
        .add(octets);
    into.extend_from_slice(&front)?;
    into.extend_from_slice(&sum.octets())?;
    into.extend_from_slice(&[0, 0])
}

// A length in two octets: that of heads, and of what is behind them.
fn length_of(heads: usize, octets: usize) -> [u8; 2] {
    let length = heads.saturating_add(octets).min(65_535);
    (length as u16).to_be_bytes()
}
