// A stream in pieces against a plain reader of whole lists.
use crate::script::{check, told_message};
use isp1_tml::{Feeder, Message};
use std::alloc::{AllocError, Global};
use std::test::Fail;

// A context with interval 30 and factor 5, a heartbeat, PDUs of 4, 0 and 17 octets, a context with
// the greatest numbers, and the first three octets of a PDU's header.
const STREAM: [u8; 96] = *b"\x02\0\0\0\0\0\0\x0cISP1\0\0\0\x01\0\x1e\0\x05\
\x03\0\0\0\0\0\0\0\
\x01\0\0\0\0\0\0\x04\x9f\x68\x01\x7f\
\x01\0\0\0\0\0\0\0\
\x01\0\0\0\0\0\0\x11\xbf\x65\x0e\x80\0\x1a\x07STATION\x80\x01\x05\
\x02\0\0\0\0\0\0\x0cISP1\0\0\0\x01\xff\xff\xff\xff\
\x01\0\0";

// What is told of it.
const TOLD: &str = "Context { interval: 30, factor: 5 } Heartbeat Pdu([159, 104, 1, 127]) Pdu([]) \
    Pdu([191, 101, 14, 128, 0, 26, 7, 83, 84, 65, 84, 73, 79, 78, 128, 1, 5]) \
    Context { interval: 65535, factor: 65535 } ";

// A message of a kind and a body without faults.
fn message(kind: u8, body: &[u8]) -> Message<'_> {
    match (kind, body) {
        (1, _) => Message::Pdu(body),
        (2, [.., i, j, f, g]) => Message::Context {
            interval: u16::from_be_bytes([*i, *j]),
            factor: u16::from_be_bytes([*f, *g]),
        },
        _ => Message::Heartbeat,
    }
}

// The whole messages of a stream without faults, read from the whole list.
fn plain(alloc: Global, stream: &[u8]) -> Result<String, AllocError> {
    let mut told = String::new(alloc);
    let mut rest = stream;
    for _ in 0..stream.len() {
        let [kind, _, _, _, a, b, c, d, behind @ ..] = rest else {
            break;
        };
        let size = u32::from_be_bytes([*a, *b, *c, *d]) as usize;
        let Some(body) = behind.get(..size) else {
            break;
        };
        told.push_str(&told_message(alloc, message(*kind, body))?)?;
        rest = behind.get(size..).unwrap_or(&[]);
    }
    Ok(told)
}

// The next message of a feeder, which says beforehand whether there is one.
fn next(alloc: Global, feeder: &mut Feeder) -> Result<String, AllocError> {
    let some = feeder.has_message();
    match feeder.next_message() {
        Ok(Some(message)) if some => told_message(alloc, message),
        Ok(None) if !some => Ok(String::new(alloc)),
        _ => format!(in alloc; "another answer "),
    }
}

// Feeds one piece, and tells the messages that are whole then.
fn tell_piece(
    alloc: Global,
    feeder: &mut Feeder,
    piece: &[u8],
    text: &mut String,
) -> Result<(), AllocError> {
    if feeder.feed(piece) != Ok(piece.len()) {
        text.push_str("not taken ")?;
    }
    // A piece ends no more messages than it has octets.
    for _ in piece {
        text.push_str(&next(alloc, feeder)?)?;
    }
    Ok(())
}

// What a feeder tells of the stream in pieces of these sizes, and the last piece.
fn in_pieces(alloc: Global, sizes: &[usize]) -> Result<String, AllocError> {
    let mut feeder = Feeder::new(alloc)?;
    let mut told = String::new(alloc);
    let mut rest = STREAM.as_slice();
    for size in sizes {
        let (piece, later) = rest.split_at((*size).min(rest.len()));
        tell_piece(alloc, &mut feeder, piece, &mut told)?;
        rest = later;
    }
    tell_piece(alloc, &mut feeder, rest, &mut told)?;
    Ok(told)
}

#[test]
fn every_cut_gives_the_plain_readers_messages(rt: HostRuntime) -> Result<(), Fail> {
    assert_eq!(rt; plain(rt.alloc(), &STREAM)?.as_str(), TOLD);
    for cut in 0..=STREAM.len() {
        let told = in_pieces(rt.alloc(), &[cut])?;
        assert_eq!(rt; told.as_str(), TOLD, "cut at {cut}");
    }
    for sizes in [[1; 96], [7; 96], [13; 96]] {
        assert_eq!(rt; in_pieces(rt.alloc(), &sizes)?.as_str(), TOLD);
    }
    for sizes in [
        [3, 5, 12, 1, 40, 2, 9, 1],
        [20, 8, 8, 4, 8, 25, 20, 3],
        [19, 2, 6, 9, 1, 1, 50, 2],
        [0, 27, 1, 0, 11, 13, 8, 30],
    ] {
        assert_eq!(rt; in_pieces(rt.alloc(), &sizes)?.as_str(), TOLD);
    }
    Ok(())
}

// The stream's first message has 20 octets.
#[test]
fn messages_wait_their_turn(rt: HostRuntime) -> Result<(), Fail> {
    check(&rt, rt.alloc(), WAITING)
}

const WAITING: &str = "
feed 020000000000000c4953503100000001001e0005030000000000000001000000000000049f68017f\
    01000000000000000100000000000011bf650e80001a0753544154494f4e800105\
    020000000000000c4953503100000001ffffffff010000 = 96;
room = 1048488;
skip;
room = 1048508;
some = true;";
