// Messages in words: with a comma between two, each by its name, or a PDU's octets in hexadecimal
// digits, or with `!` before them the octets as they came.
use crate::named;
use isp1_tml::{LONGEST_PDU, head};
use std::alloc::Global;
use std::test::Fail;

// Appends the octets of words of hexadecimal digits.
fn put_digits(alloc: Global, words: &str, stream: &mut Vec<u8>) -> Result<(), Fail> {
    for word in words.split_whitespace() {
        stream.extend_from_slice(hex::decode(alloc, word)?.as_slice())?;
    }
    Ok(())
}

// Appends a PDU behind its header.
fn put_pdu(alloc: Global, words: &str, stream: &mut Vec<u8>) -> Result<(), Fail> {
    let mut pdu = Vec::new(alloc);
    put_digits(alloc, words, &mut pdu)?;
    let length = pdu.len().min(LONGEST_PDU as usize) as u32;
    stream.extend_from_slice(&head(1, length))?;
    stream.extend_from_slice(pdu.as_slice())?;
    Ok(())
}

fn put_message(alloc: Global, message: &str, stream: &mut Vec<u8>) -> Result<(), Fail> {
    let octets = named::octets_of(message).or(message.strip_prefix('!'));
    match octets {
        Some(octets) => put_digits(alloc, octets, stream),
        None => put_pdu(alloc, message, stream),
    }
}

/// The octets of messages.
pub fn octets_of(alloc: Global, messages: &str) -> Result<Vec<u8>, Fail> {
    let mut stream = Vec::new(alloc);
    for message in messages.split(',') {
        let message = message.trim();
        if !message.is_empty() {
            put_message(alloc, message, &mut stream)?;
        }
    }
    Ok(stream)
}
