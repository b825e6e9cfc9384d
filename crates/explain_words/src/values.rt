// Fields that many PDUs have.

use crate::text::Text;
use ber_core::{BerFault, Reader};
use sle_common::{
    AntennaId, Attribute, Channel, Credentials, Diagnostic, Gvcid, InstancePart, InstanceRef,
    LONGEST_VALUE, MOST_PARTS,
};
use sle_numbers::{CommonDiagnostic, Numbered};

/// Appends a field that is a number of a table, by its word.
pub fn put_named<T: Numbered>(name: &str, number: i128, text: &mut Text) {
    match value_of::<T>(number) {
        Some(value) => text.field(name, value.word()),
        None => {
            text.begin(name);
            text.put_number(number);
            text.put(", which the standard's table doesn't have");
            text.end();
        }
    }
}

/// The value of a table that has this number.
pub fn value_of<T: Numbered>(number: i128) -> Option<T> {
    let number = u8::try_from(number).ok()?;
    T::from_number(number)
}

/// Appends who signs, of an invocation or of a return.
pub fn put_credentials(name: &str, credentials: &Credentials<'_>, text: &mut Text) {
    match credentials {
        Credentials::Unused => text.field(name, "unused"),
        Credentials::Used(octets) => text.hex(name, octets),
    }
}

/// Appends what each invocation that is answered begins with.
pub fn put_invoker(credentials: &Credentials<'_>, invoke: u16, text: &mut Text) {
    put_credentials("invokerCredentials", credentials, text);
    text.number("invokeId", i128::from(invoke));
}

/// Appends what each return of such a one begins with.
pub fn put_performer(credentials: &Credentials<'_>, invoke: u16, text: &mut Text) {
    put_credentials("performerCredentials", credentials, text);
    text.number("invokeId", i128::from(invoke));
}

/// Appends why an operation was refused: for a reason that all share, or one of its own table.
pub fn put_diagnostic<T: Numbered>(diagnostic: &Diagnostic, text: &mut Text) {
    match diagnostic {
        Diagnostic::Common(number) => put_named::<CommonDiagnostic>(DIAGNOSTIC, *number, text),
        Diagnostic::Specific(number) => put_named::<T>(DIAGNOSTIC, *number, text),
    }
}

/// The field that says why an operation was refused.
pub const DIAGNOSTIC: &str = "negativeResult";

/// Appends how an operation that gives nothing ended.
pub fn put_confirmation<T: Numbered>(answer: &Result<(), Diagnostic>, text: &mut Text) {
    match answer {
        Ok(()) => text.field("result", "positive"),
        Err(diagnostic) => put_diagnostic::<T>(diagnostic, text),
    }
}

/// Appends the antenna that received a frame.
pub fn put_antenna(antenna: &AntennaId<'_>, text: &mut Text) {
    match antenna {
        AntennaId::Global(octets) => text.hex("antennaId, globalForm", octets),
        AntennaId::Local(octets) => text.hex("antennaId, localForm", octets),
    }
}

/// Appends a channel of a spacecraft.
pub fn put_channel(channel: &Gvcid, text: &mut Text) {
    text.begin("requestedGvcId");
    text.put("spacecraft ");
    text.put_number(i128::from(channel.spacecraft));
    text.put(", version ");
    text.put_number(i128::from(channel.version));
    match channel.channel {
        Channel::Master => text.put(", master channel"),
        Channel::Virtual(number) => {
            text.put(", virtual channel ");
            text.put_number(i128::from(number));
        }
    }
    text.end();
}

/// Appends the service instance that a PDU names, as a text has it.
pub fn put_instance(instance: &InstanceRef<'_>, text: &mut Text) {
    text.begin("serviceInstanceIdentifier");
    match instance {
        InstanceRef::Spelled(octets) => put_spelled(octets, text),
        InstanceRef::Own(own) => put_parts(own.parts(), text),
    }
    text.end();
}

fn put_spelled(octets: &[u8], text: &mut Text) {
    let mut reader = Reader::new(octets);
    let mut dot = "";
    for _ in 0..MOST_PARTS {
        if let Ok((attribute, value)) = read_part(&mut reader) {
            put_part(dot, attribute, value, text);
            dot = ".";
        }
    }
}

fn put_parts(parts: &[InstancePart], text: &mut Text) {
    let mut dot = "";
    for part in parts {
        put_part(dot, part.attribute, part.value.as_slice(), text);
        dot = ".";
    }
}

fn put_part(dot: &str, attribute: Attribute, value: &[u8], text: &mut Text) {
    text.put(dot);
    text.put(attribute.name());
    text.put("=");
    text.put_octets(value);
}

// An attribute with its value.
fn read_part<'a>(reader: &mut Reader<'a>) -> Result<(Attribute, &'a [u8]), BerFault> {
    reader.element(&[0x31])?;
    reader.element(&[0x30])?;
    let place = reader.place();
    let object_id = reader.object_id(&[0x06])?;
    let value = reader.visible(&[0x1a], 1, LONGEST_VALUE)?;
    reader.leave()?;
    reader.leave()?;
    let attribute = Attribute::of_object_id(object_id).ok_or(BerFault::BadContent { place })?;
    Ok((attribute, value))
}
