// What a user's BIND names, heard as its octets come.

use ber_core::{BerFault, Reader};
use ber_shape::Pdu;
use bind_pdu::Bind;
use isp1_tml::{Message, Messages};
use sle_common::{Attribute, InstancePart, InstanceRef, LONGEST_VALUE, MOST_PARTS};
use std::alloc::{AllocError, Global};
use std::str;

// How many octets of a connection are kept at most. A BIND with its context and some heartbeats has
// fewer.
const MOST_OCTETS: usize = 4_096;

/// What a BIND names.
#[derive(Drop)]
pub(crate) struct Named {
    /// The initiator.
    pub user: String,
    /// The service instance, as a configuration writes it.
    pub instance: String,
}

/// The first octets of a connection, until its first PDU is whole.
#[derive(Drop)]
pub(crate) struct BindTap {
    alloc: Global,
    octets: Vec<u8>,
    is_over: bool,
}

impl BindTap {
    /// Nothing has come yet.
    pub fn new(alloc: Global) -> BindTap {
        BindTap {
            alloc,
            octets: Vec::new(alloc),
            is_over: false,
        }
    }

    /// Hears octets, and answers what the BIND names once it is whole, once.
    pub fn hear(&mut self, octets: &[u8]) -> Option<Named> {
        if self.is_over {
            return None;
        }
        let room = MOST_OCTETS.saturating_sub(self.octets.len());
        if octets.len() > room || self.octets.extend_from_slice(octets).is_err() {
            self.end();
            return None;
        }
        let found = first_pdu(&self.octets);
        let named = match found {
            Found::Pdu(pdu) => names_of(self.alloc, pdu),
            Found::NotYet => return None,
            Found::None => None,
        };
        self.end();
        named
    }

    // Keeps nothing from now on.
    fn end(&mut self) {
        self.is_over = true;
        self.octets = Vec::new(self.alloc);
    }
}

// What comes first in a stream besides its context and heartbeats.
enum Found<'a> {
    Pdu(&'a [u8]),
    NotYet,
    None,
}

// The first PDU of these octets.
fn first_pdu(octets: &[u8]) -> Found<'_> {
    let mut messages = Messages::new(octets, 0);
    for _ in 0..MOST_OCTETS {
        match messages.next_message() {
            Ok(Some(Message::Pdu(pdu))) => return Found::Pdu(pdu),
            Ok(Some(_)) => {}
            Ok(None) => return Found::NotYet,
            Err(_) => return Found::None,
        }
    }
    Found::None
}

// What a BIND names; nothing if this PDU is none, or if memory is refused.
fn names_of(alloc: Global, pdu: &[u8]) -> Option<Named> {
    let bind = Bind::decode(pdu).ok()?;
    let user = str::from_utf8(bind.initiator).ok()?;
    Some(Named {
        user: String::from_str(alloc, user).ok()?,
        instance: text_of(alloc, &bind.instance).ok()?,
    })
}

// An instance's identifier as a text.
fn text_of(alloc: Global, instance: &InstanceRef<'_>) -> Result<String, AllocError> {
    let mut text = String::new(alloc);
    match instance {
        InstanceRef::Spelled(octets) => put_spelled(octets, &mut text)?,
        InstanceRef::Own(own) => put_parts(own.parts(), &mut text)?,
    }
    Ok(text)
}

fn put_spelled(octets: &[u8], text: &mut String) -> Result<(), AllocError> {
    let mut reader = Reader::new(octets);
    for _ in 0..MOST_PARTS {
        if let Ok((attribute, value)) = read_part(&mut reader) {
            put_part(attribute, value, text)?;
        }
    }
    Ok(())
}

fn put_parts(parts: &[InstancePart], text: &mut String) -> Result<(), AllocError> {
    for part in parts {
        put_part(part.attribute, part.value.as_slice(), text)?;
    }
    Ok(())
}

// Appends an attribute with its value, after a dot if it isn't the first.
fn put_part(attribute: Attribute, value: &[u8], text: &mut String) -> Result<(), AllocError> {
    if !text.is_empty() {
        text.push_str(".")?;
    }
    text.push_str(attribute.name())?;
    text.push_str("=")?;
    text.push_str(str::from_utf8(value).unwrap_or(""))
}

// An attribute with its value, as a SET of one sequence (CCSDS 911.1-B, annex A).
fn read_part<'a>(reader: &mut Reader<'a>) -> Result<(Attribute, &'a [u8]), BerFault> {
    reader.element(&[0x31])?;
    reader.element(&[0x30])?;
    let place = reader.place();
    let object_id = reader.object_id(&[0x06])?;
    let value = reader.visible(&[0x1a], 1, LONGEST_VALUE)?;
    reader.leave()?;
    reader.leave()?;
    let attribute = Attribute::of_object_id(object_id).ok_or(BerFault::BadContent { place })?;
    Ok((attribute, value))
}
