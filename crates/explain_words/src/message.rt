// Messages of the transport in words.

use crate::association::put_abort;
use crate::delivery::put_items;
use crate::in_words::put_as;
use crate::name::name_of;
use crate::text::Text;
use ber_core::BerFault;
use bind_pdu::{Bind, BindReturn, PeerAbort, Unbind, UnbindReturn};
use fcltu_pdu::{
    Async, CltuReport, CltuStart, CltuStartReturn, CltuTransfer, Throw, ThrowReturn, TransferReturn,
};
use isp1_tml::{Message, Messages, TmlFault};
use return_pdu::{
    GetParameter, ParameterReturn, RafReport, RafStart, RcfReport, RcfStart, Schedule,
    ScheduleReturn, StartReturn, Stop, StopReturn, TransferBuffer,
};
use sle_numbers::ServiceType;
use user_lines::Tag;

/// Appends the messages that octets of a connection of a service spell, up to the first that is
/// refused, which is told with its place and with what was expected there.
pub fn put_messages(service: ServiceType, octets: &[u8], text: &mut Text) {
    let mut messages = Messages::new(octets, 0);
    while let Ok(Some(message)) = messages.next_message() {
        put_message(service, message, text);
    }
    match messages.next_message() {
        Ok(_) => put_left(messages.left(), text),
        Err(fault) => put_fault(&fault, text),
    }
}

// Appends what octets that make no message yet are.
fn put_left(left: &[u8], text: &mut Text) {
    if !left.is_empty() {
        text.title("less than a message");
        text.hex("octets", left);
    }
}

// Appends why octets are no message.
fn put_fault(fault: &TmlFault, text: &mut Text) {
    match fault {
        TmlFault::BadType { place } => put_expected("a kind of message, 1 to 3", *place, text),
        TmlFault::NotZero { place } => put_expected("an octet 0", *place, text),
        TmlFault::BadLength { place } => {
            put_expected(
                "the length of a context, 12, or of a heartbeat, 0",
                *place,
                text,
            );
        }
        TmlFault::TooLong { .. } => text.title("not read: its PDU has over 1048576 octets"),
        TmlFault::BadContext { place } => put_expected("ISP1 and its version", *place, text),
    }
}

fn put_expected(what: &str, place: u64, text: &mut Text) {
    text.begin_title();
    text.put("not read: octet ");
    text.put_number(i128::from(place));
    text.put(" was expected to begin ");
    text.put(what);
    text.end();
}

fn put_message(service: ServiceType, message: Message<'_>, text: &mut Text) {
    match message {
        Message::Heartbeat => text.title("heartbeat"),
        Message::Context { interval, factor } => {
            text.title("context");
            text.number("heartbeat interval in seconds", i128::from(interval));
            text.number("dead factor", i128::from(factor));
        }
        Message::Pdu(octets) => put_pdu(service, octets, text),
    }
}

// Appends a PDU of a service: its name and its fields, or where it isn't read.
fn put_pdu(service: ServiceType, octets: &[u8], text: &mut Text) {
    match Tag::of(octets) {
        Some(tag) => {
            text.title(name_of(service, tag));
            if let Err(fault) = put_tagged(service, tag, octets, text) {
                put_refused(&fault, text);
            }
        }
        None => text.title("not read: octet 0 of a PDU was expected to begin its tag"),
    }
}

// Appends the PDU that octets with this tag are to spell.
fn put_tagged(
    service: ServiceType,
    tag: Tag,
    octets: &[u8],
    text: &mut Text,
) -> Result<(), BerFault> {
    match tag {
        Tag::Bind => put_as::<Bind>(octets, text),
        Tag::BindReturn => put_as::<BindReturn>(octets, text),
        Tag::Unbind => put_as::<Unbind>(octets, text),
        Tag::UnbindReturn => put_as::<UnbindReturn>(octets, text),
        Tag::PeerAbort => put_peer_abort(octets, text),
        Tag::Stop => put_as::<Stop>(octets, text),
        Tag::StopReturn => put_as::<StopReturn>(octets, text),
        Tag::Schedule => put_as::<Schedule>(octets, text),
        Tag::ScheduleReturn => put_as::<ScheduleReturn>(octets, text),
        Tag::GetParameter => put_as::<GetParameter>(octets, text),
        Tag::ParameterReturn => put_as::<ParameterReturn>(octets, text),
        _ => match service {
            ServiceType::RtnAllFrames => put_of_raf(tag, octets, text),
            ServiceType::RtnChFrames => put_of_rcf(tag, octets, text),
            ServiceType::FwdCltu => put_of_cltu(tag, octets, text),
        },
    }
}

fn put_of_raf(tag: Tag, octets: &[u8], text: &mut Text) -> Result<(), BerFault> {
    match tag {
        Tag::Start => put_as::<RafStart>(octets, text),
        Tag::StartReturn => put_as::<StartReturn>(octets, text),
        Tag::BufferOrThrow => put_buffer(TransferBuffer::decode_raf(octets), text),
        Tag::ReportOrThrowReturn => put_as::<RafReport>(octets, text),
        _ => put_of_another(text),
    }
}

fn put_of_rcf(tag: Tag, octets: &[u8], text: &mut Text) -> Result<(), BerFault> {
    match tag {
        Tag::Start => put_as::<RcfStart>(octets, text),
        Tag::StartReturn => put_as::<StartReturn>(octets, text),
        Tag::BufferOrThrow => put_buffer(TransferBuffer::decode_rcf(octets), text),
        Tag::ReportOrThrowReturn => put_as::<RcfReport>(octets, text),
        _ => put_of_another(text),
    }
}

fn put_of_cltu(tag: Tag, octets: &[u8], text: &mut Text) -> Result<(), BerFault> {
    match tag {
        Tag::Start => put_as::<CltuStart>(octets, text),
        Tag::StartReturn => put_as::<CltuStartReturn>(octets, text),
        Tag::BufferOrThrow => put_as::<Throw>(octets, text),
        Tag::ReportOrThrowReturn => put_as::<ThrowReturn>(octets, text),
        Tag::Transfer => put_as::<CltuTransfer>(octets, text),
        Tag::TransferReturn => put_as::<TransferReturn>(octets, text),
        Tag::Notify => put_as::<Async>(octets, text),
        Tag::CltuReport => put_as::<CltuReport>(octets, text),
        _ => put_of_another(text),
    }
}

fn put_of_another(text: &mut Text) -> Result<(), BerFault> {
    text.field(NOT_READ, "the service has no such PDU");
    Ok(())
}

fn put_peer_abort(octets: &[u8], text: &mut Text) -> Result<(), BerFault> {
    match PeerAbort::decode(octets) {
        Ok(abort) => {
            put_abort(&abort, text);
            Ok(())
        }
        Err(fault) => Err(fault),
    }
}

fn put_buffer(
    decoded: Result<TransferBuffer<'_>, BerFault>,
    text: &mut Text,
) -> Result<(), BerFault> {
    match decoded {
        Ok(buffer) => {
            put_items(buffer, text);
            Ok(())
        }
        Err(fault) => Err(fault),
    }
}

const NOT_READ: &str = "not read";

// Appends where a PDU isn't read on, and what was expected there.
fn put_refused(fault: &BerFault, text: &mut Text) {
    match fault {
        BerFault::Cut { place } => put_not_read(*place, "an element that is whole", text),
        BerFault::WrongTag { place, .. } => put_not_read(*place, "the next field's tag", text),
        BerFault::BadLength { place } => put_not_read(*place, "a length that fits", text),
        BerFault::BadContent { place } => put_not_read(
            *place,
            "a value in the field's range",
            text,
        ),
        BerFault::Wide { place } => put_not_read(*place, "an INTEGER of 64 bits at most", text),
    }
}

fn put_not_read(place: usize, expected: &str, text: &mut Text) {
    text.begin(NOT_READ);
    text.put("octet ");
    text.put_number(place as i128);
    text.put(" of the PDU was expected to begin ");
    text.put(expected);
    text.end();
}
