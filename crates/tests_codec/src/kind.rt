// What octets are decoded as, as a text.
ghost use Rattle.std.specs.Prelude.{◌<◌, ◌^◌};

use ber_core::{BerFault, Reader, Writer};
use ber_shape::{Element, Pdu, decode, encode, length, read_within};
use bind_pdu::{Bind, BindReturn, PeerAbort, Unbind, UnbindReturn};
use fcltu_pdu::{
    Async, CltuReport, CltuStart, CltuStartReturn, CltuTransfer, Throw, ThrowReturn, TransferReturn,
};
use return_pdu::{
    GetParameter, ParameterReturn, RafReport, RafStart, RcfReport, RcfStart, Schedule,
    ScheduleReturn, StartReturn, Stop, StopReturn, TransferBuffer, TransferItem, buffer_head,
    buffer_length,
};
use sle_common::{
    Annotation, AntennaId, ConditionalTime, Credentials, Diagnostic, Gvcid, InstanceId,
    InstanceRef, InvokeId, Number, Parameter, ReportKind, Time,
};
use std::alloc::Global;
use std::fmt::Debug;
use std::test::Fail;

/// What octets are taken for: a type that PDUs share, a PDU, a transfer buffer.
#[derive(Clone, Copy)]
pub enum Kind {
    Number,
    InvokeId,
    Credentials,
    Time,
    ConditionalTime,
    Channel,
    AntennaId,
    Annotation,
    Diagnostic,
    ReportKind,
    Parameter,
    InstanceRef,
    RafStart,
    RcfStart,
    StartReturn,
    Stop,
    StopReturn,
    Schedule,
    ScheduleReturn,
    GetParameter,
    ParameterReturn,
    RafReport,
    RcfReport,
    RafBuffer,
    RcfBuffer,
    CltuStart,
    CltuStartReturn,
    Throw,
    ThrowReturn,
    CltuTransfer,
    TransferReturn,
    Async,
    CltuReport,
    Bind,
    BindReturn,
    Unbind,
    UnbindReturn,
    PeerAbort,
}

/// What octets are decoded as, and a blank: the value as its derived `Debug` writes it, or the
/// words of the fault. Where they aren't the canonical spelling of the value, `spelled otherwise`
/// stands behind it.
pub fn told(alloc: Global, kind: Kind, octets: &[u8]) -> Result<String, Fail> {
    match kind {
        Kind::RafStart => told_pdu::<RafStart>(alloc, octets),
        Kind::RcfStart => told_pdu::<RcfStart>(alloc, octets),
        Kind::StartReturn => told_pdu::<StartReturn>(alloc, octets),
        Kind::Stop => told_pdu::<Stop>(alloc, octets),
        Kind::StopReturn => told_pdu::<StopReturn>(alloc, octets),
        Kind::Schedule => told_pdu::<Schedule>(alloc, octets),
        Kind::ScheduleReturn => told_pdu::<ScheduleReturn>(alloc, octets),
        Kind::GetParameter => told_pdu::<GetParameter>(alloc, octets),
        Kind::ParameterReturn => told_pdu::<ParameterReturn>(alloc, octets),
        Kind::RafReport => told_pdu::<RafReport>(alloc, octets),
        Kind::RcfReport => told_pdu::<RcfReport>(alloc, octets),
        Kind::RafBuffer => told_buffer(alloc, octets, TransferBuffer::decode_raf(octets)),
        Kind::RcfBuffer => told_buffer(alloc, octets, TransferBuffer::decode_rcf(octets)),
        Kind::CltuStart => told_pdu::<CltuStart>(alloc, octets),
        Kind::CltuStartReturn => told_pdu::<CltuStartReturn>(alloc, octets),
        Kind::Throw => told_pdu::<Throw>(alloc, octets),
        Kind::ThrowReturn => told_pdu::<ThrowReturn>(alloc, octets),
        Kind::CltuTransfer => told_pdu::<CltuTransfer>(alloc, octets),
        Kind::TransferReturn => told_pdu::<TransferReturn>(alloc, octets),
        Kind::Async => told_pdu::<Async>(alloc, octets),
        Kind::CltuReport => told_pdu::<CltuReport>(alloc, octets),
        Kind::Bind => told_bind(alloc, octets),
        Kind::BindReturn => told_pdu::<BindReturn>(alloc, octets),
        Kind::Unbind => told_pdu::<Unbind>(alloc, octets),
        Kind::UnbindReturn => told_pdu::<UnbindReturn>(alloc, octets),
        Kind::PeerAbort => told_abort(alloc, octets),
        shared => told_shared(alloc, shared, octets),
    }
}

// Of a type that PDUs share.
fn told_shared(alloc: Global, kind: Kind, octets: &[u8]) -> Result<String, Fail> {
    match kind {
        Kind::Number => told_element::<Number>(alloc, octets),
        Kind::InvokeId => told_element::<InvokeId>(alloc, octets),
        Kind::Credentials => told_element::<Credentials>(alloc, octets),
        Kind::Time => told_element::<Time>(alloc, octets),
        Kind::ConditionalTime => told_element::<ConditionalTime>(alloc, octets),
        Kind::Channel => told_channel(alloc, octets),
        Kind::AntennaId => told_element::<AntennaId>(alloc, octets),
        Kind::Annotation => told_element::<Annotation>(alloc, octets),
        Kind::Diagnostic => told_element::<Diagnostic>(alloc, octets),
        Kind::ReportKind => told_element::<ReportKind>(alloc, octets),
        Kind::Parameter => told_element::<Parameter>(alloc, octets),
        Kind::InstanceRef => told_identifier(alloc, octets),
        _ => Ok(format!(in alloc; "of no type that is shared")?),
    }
}

// What is said of octets that aren't the canonical ones.
fn otherwise(canonical: &[u8], octets: &[u8]) -> &'static str {
    if canonical == octets {
        ""
    } else {
        "spelled otherwise "
    }
}

fn told_pdu<'a, P: Pdu<'a> + Debug + Drop>(
    alloc: Global,
    octets: &'a [u8],
) -> Result<String, Fail> {
    let pdu = match P::decode(octets) {
        Ok(pdu) => pdu,
        Err(fault) => return Ok(format!(in alloc; "{fault} ")?),
    };
    let otherwise = otherwise(&written(alloc, &pdu)?, octets);
    Ok(format!(in alloc; "{pdu:?} {otherwise}")?)
}

// The canonical spelling of a PDU.
fn written<'a, P: Pdu<'a>>(alloc: Global, pdu: &P) -> Result<Vec<u8>, Fail>
    requires { P.Members.shape.Fits (P.Members.seen pdu.now) }
{
    let mut writer = Writer::new(alloc, pdu.length())?;
    pdu.encode(&mut writer);
    Ok(Vec::from_slice(alloc, writer.octets())?)
}

// Of a BIND its fields, and of some identifiers those that it names; each is written too as a BIND
// of this side to that instance.
fn told_bind(alloc: Global, octets: &[u8]) -> Result<String, Fail> {
    let bind = match Bind::decode(octets) {
        Ok(bind) => bind,
        Err(fault) => return Ok(format!(in alloc; "{fault} ")?),
    };
    let mut text = format!(in alloc;
        "{:?} {:?} {:?} {} {} ",
        bind.credentials, bind.initiator, bind.port, bind.service, bind.version
    )?;
    for name in IDENTIFIERS {
        let id = InstanceId::parse_text(alloc, name)?;
        if bind.instance.names(&id) {
            let instance = InstanceRef::Own(&id);
            let own = Bind { instance, ..bind };
            text.push_str(name)?;
            text.push_str(" ")?;
            text.push_str(otherwise(&written(alloc, &own)?, octets))?;
        }
    }
    text.push_str(otherwise(&written(alloc, &bind)?, octets))?;
    Ok(text)
}

fn told_abort(alloc: Global, octets: &[u8]) -> Result<String, Fail> {
    let abort = match PeerAbort::decode(octets) {
        Ok(abort) => abort,
        Err(fault) => return Ok(format!(in alloc; "{fault} ")?),
    };
    let mut writer = Writer::new(alloc, abort.length())?;
    abort.encode(&mut writer);
    let otherwise = otherwise(writer.octets(), octets);
    Ok(format!(in alloc; "{abort:?} {otherwise}")?)
}

fn told_element<'a, E: Element<'a>>(alloc: Global, octets: &'a [u8]) -> Result<String, Fail>
where
    E::Value: Debug,
    requires { E.shape.most < 2 ^ 64 }
{
    let value = match decode::<E>(octets) {
        Ok(value) => value,
        Err(fault) => return Ok(format!(in alloc; "{fault} ")?),
    };
    let mut writer = Writer::new(alloc, length::<E>(&value))?;
    encode::<E>(&value, &mut writer);
    let otherwise = otherwise(writer.octets(), octets);
    Ok(format!(in alloc; "{value:?} {otherwise}")?)
}

fn channel_of(octets: &[u8]) -> Result<Gvcid, BerFault> {
    let mut reader = Reader::new(octets);
    let channel = read_within::<Gvcid>(&[0x30], &mut reader)?;
    reader.leave()?;
    Ok(channel)
}

fn told_channel(alloc: Global, octets: &[u8]) -> Result<String, Fail> {
    Ok(match channel_of(octets) {
        Ok(channel) => format!(in alloc; "{channel:?} ")?,
        Err(fault) => format!(in alloc; "{fault} ")?,
    })
}

const IDENTIFIERS: [&str; 7] = [
    "sagr=1",
    "rocf=1",
    "sagr=9.raf=x",
    "sagr=1.spack=P.rsl-fg=1.raf=onlc1",
    "sagr=1.spack=P.rsl-fg=1.raf=onlc2",
    "sagr=1.spack=P.rsl-fg=1.rcf=onlc1",
    "sagr=1.sagr=1.sagr=1.sagr=1.sagr=1.sagr=1.sagr=1.sagr=1",
];

// Those of some identifiers that octets name.
fn told_identifier(alloc: Global, octets: &[u8]) -> Result<String, Fail> {
    let spelled = match decode::<InstanceRef>(octets) {
        Ok(spelled) => spelled,
        Err(fault) => return Ok(format!(in alloc; "{fault} ")?),
    };
    let mut text = String::new(alloc);
    for name in IDENTIFIERS {
        if spelled.names(&InstanceId::parse_text(alloc, name)?) {
            text.push_str(name)?;
            text.push_str(" ")?;
        }
    }
    let mut writer = Writer::new(alloc, length::<InstanceRef>(&spelled))?;
    encode::<InstanceRef>(&spelled, &mut writer);
    text.push_str(otherwise(writer.octets(), octets))?;
    Ok(text)
}

// Of a transfer buffer its items, one after another.
fn told_buffer(
    alloc: Global,
    octets: &[u8],
    buffer: Result<TransferBuffer, BerFault>,
) -> Result<String, Fail> {
    let mut buffer = match buffer {
        Ok(buffer) => buffer,
        Err(fault) => return Ok(format!(in alloc; "{fault} ")?),
    };
    let mut text = String::new(alloc);
    let mut items = Vec::new(alloc);
    // An item has at least one octet, so there are no more than these.
    for _ in octets {
        if let Some(item) = buffer.next() {
            let mut writer = Writer::new(alloc, item.length())?;
            item.encode(&mut writer);
            items.extend_from_slice(writer.octets())?;
            text.push_str(format!(in alloc; "{item:?} ")?.as_str())?;
        }
    }
    let canonical = buffer_of(alloc, &items)?;
    text.push_str(otherwise(&canonical, octets))?;
    Ok(text)
}

// A buffer of these items.
fn buffer_of(alloc: Global, items: &[u8]) -> Result<Vec<u8>, Fail> {
    let mut head = Writer::new(alloc, buffer_length(items.len()) - items.len())?;
    buffer_head(items.len(), &mut head);
    let mut octets = Vec::from_slice(alloc, head.octets())?;
    octets.extend_from_slice(items)?;
    Ok(octets)
}
