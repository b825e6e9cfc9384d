// What a message says.
ghost use Rattle.std.specs.Prelude.{◌≡◌, Some, None};
ghost use Rattle.ber_shape.specs.Exact.{whole};
ghost use Rattle.ber_shape.specs.Members.{structured};
ghost use Rattle.bind_pdu.specs.Aborting.{peer_abort};
ghost use Rattle.bind_pdu.specs.Binding.{bind_return};
ghost use Rattle.bind_pdu.specs.Unbinding.{unbind_return};
ghost use Rattle.return_pdu.specs.declared.return_kind.ReturnKind.TheVariants.{Raf, Rcf};
ghost use Rattle.return_pdu.specs.Starting.{start_return};
ghost use Rattle.return_pdu.specs.Stopping.{stop_return};
ghost use Rattle.return_pdu.specs.Scheduling.{schedule_return};
ghost use Rattle.return_pdu.specs.Getting.{parameter_return};
ghost use Rattle.return_pdu.specs.Reporting.{raf_report, rcf_report};
ghost use Rattle.return_pdu.specs.TransferItem.{buffer};
ghost use Rattle.fcltu_pdu.specs.Start.{start_return_pdu};
ghost use Rattle.fcltu_pdu.specs.Throw.{throw_return_pdu};
ghost use Rattle.fcltu_pdu.specs.Transfer.{transfer_return_pdu};
ghost use Rattle.fcltu_pdu.specs.Async.{notice_pdu};
ghost use Rattle.fcltu_pdu.specs.Report.{report_pdu};
ghost use Rattle.isp1_tml.specs.Given.{content_of};
ghost use Rattle.user_lines.specs.Told.{told_in, tag_told, start_told, start_return_told, buffer_told};
ghost use Rattle.user_lines.specs.Told.{report_told, cltu_told, read_as, diagnosed, number_in};
ghost use Rattle.user_lines.specs.Told.{name_of, parameter_told, bind_returned, start_returned};
ghost use Rattle.user_lines.specs.Told.{cltu_start_returned, stop_returned, schedule_returned};
ghost use Rattle.user_lines.specs.Told.{throw_returned, transfer_returned, parameter_returned};
ghost use Rattle.user_lines.specs.Told.{raf_reported, rcf_reported, cltu_reported, notified};

use crate::tag::Tag;
use ber_shape::Pdu;
use bind_pdu::{Bind, BindReturn, PeerAbort, Unbind, UnbindReturn};
use fcltu_numbers::CltuNotificationType;
use fcltu_pdu::{
    Async, CltuReport, CltuStart, CltuStartReturn, CltuTransfer, Throw, ThrowReturn, TransferReturn,
};
use isp1_tml::Message;
use return_pdu::{
    GetParameter, ParameterReturn, RafReport, RafStart, RcfReport, RcfStart, Schedule,
    ScheduleReturn, StartReturn, Stop, StopReturn, TransferBuffer,
};
use sle_common::{Diagnostic, Parameter as Value};
use sle_numbers::ServiceType;

/// What a message says to one who reads a stream.
#[derive(Drop)]
pub enum Told<'a> {
    /// A context or a heartbeat.
    Nothing,
    /// An invocation of a user.
    Invoked(Tag),
    /// A return: the number of its invocation, where it has one, and why it is negative, where it
    /// is.
    Returned {
        tag: Tag,
        invoke: Option<u16>,
        refusal: Option<i128>,
    },
    /// The return of TRANSFER-DATA: the identification that is expected next, and the octets that
    /// are free.
    Transferred {
        invoke: u16,
        refusal: Option<i128>,
        next: u32,
        free: i128,
    },
    /// A positive return of GET-PARAMETER: the number that names the parameter.
    Parameter {
        invoke: u16,
        name: u8,
    },
    /// A transfer buffer.
    Items(TransferBuffer<'a>),
    /// An ASYNC-NOTIFY: its kind, and the identification of the last CLTU that was radiated.
    Notice {
        kind: CltuNotificationType,
        last_ok: Option<u32>,
    },
    /// A status report: the error-free frames of RAF, and the six numbers behind them. The forward
    /// service's are production, uplink, received, taken, radiated and free.
    Report {
        error_free: Option<i128>,
        numbers: (i128, i128, i128, i128, i128, i128),
    },
    /// A PEER-ABORT with its diagnostic.
    Aborted(u8),
}

impl<'a> Told<'a> {
    /// What a message of a stream of a service says; none where it is bad.
    pub fn of(service: ServiceType, message: Message<'a>) -> Option<Told<'a>>
        ensures { result ≡ told_in service (content_of message.entry) }
    {
        match message {
            Message::Pdu(octets) => match Tag::of(octets) {
                Some(tag) => tag_told(service, tag, octets),
                None => None,
            },
            Message::Context { .. } | Message::Heartbeat => Some(Told::Nothing),
        }
    }
}

// What a PDU with this tag says.
fn tag_told(service: ServiceType, tag: Tag, octets: &[u8]) -> Option<Told<'_>>
    ensures { result ≡ tag_told service tag octets.now }
{
    match tag {
        Tag::Start => start_told(service, octets),
        Tag::StartReturn => start_return_told(service, octets),
        Tag::Stop => invoked::<Stop>(Tag::Stop, octets),
        Tag::StopReturn => stop_returned(octets),
        Tag::Schedule => invoked::<Schedule>(Tag::Schedule, octets),
        Tag::ScheduleReturn => schedule_returned(octets),
        Tag::GetParameter => invoked::<GetParameter>(Tag::GetParameter, octets),
        Tag::ParameterReturn => parameter_returned(octets),
        Tag::BufferOrThrow => buffer_told(service, octets),
        Tag::ReportOrThrowReturn => report_told(service, octets),
        Tag::Bind => invoked::<Bind>(Tag::Bind, octets),
        Tag::BindReturn => bind_returned(octets),
        Tag::Unbind => invoked::<Unbind>(Tag::Unbind, octets),
        Tag::UnbindReturn => unbind_returned(octets),
        Tag::PeerAbort => aborted(octets),
        _ => cltu_told(service, tag, octets),
    }
}

fn start_told(service: ServiceType, octets: &[u8]) -> Option<Told<'_>>
    ensures { result ≡ start_told service octets.now }
{
    match service {
        ServiceType::RtnAllFrames => invoked::<RafStart>(Tag::Start, octets),
        ServiceType::RtnChFrames => invoked::<RcfStart>(Tag::Start, octets),
        ServiceType::FwdCltu => invoked::<CltuStart>(Tag::Start, octets),
    }
}

fn start_return_told(service: ServiceType, octets: &[u8]) -> Option<Told<'_>>
    ensures { result ≡ start_return_told service octets.now }
{
    match service {
        ServiceType::RtnAllFrames | ServiceType::RtnChFrames => start_returned(octets),
        ServiceType::FwdCltu => cltu_start_returned(octets),
    }
}

fn buffer_told(service: ServiceType, octets: &[u8]) -> Option<Told<'_>>
    ensures { result ≡ buffer_told service octets.now }
{
    match service {
        ServiceType::RtnAllFrames => raf_items(octets),
        ServiceType::RtnChFrames => rcf_items(octets),
        ServiceType::FwdCltu => invoked::<Throw>(Tag::BufferOrThrow, octets),
    }
}

fn report_told(service: ServiceType, octets: &[u8]) -> Option<Told<'_>>
    ensures { result ≡ report_told service octets.now }
{
    match service {
        ServiceType::RtnAllFrames => raf_reported(octets),
        ServiceType::RtnChFrames => rcf_reported(octets),
        ServiceType::FwdCltu => throw_returned(octets),
    }
}

// What a PDU says that the forward service alone has.
fn cltu_told(service: ServiceType, tag: Tag, octets: &[u8]) -> Option<Told<'_>>
    ensures { result ≡ cltu_told service tag octets.now }
{
    match (service, tag) {
        (ServiceType::FwdCltu, Tag::Transfer) => invoked::<CltuTransfer>(Tag::Transfer, octets),
        (ServiceType::FwdCltu, Tag::TransferReturn) => transfer_returned(octets),
        (ServiceType::FwdCltu, Tag::Notify) => notified(octets),
        (ServiceType::FwdCltu, Tag::CltuReport) => cltu_reported(octets),
        _ => None,
    }
}

// ---- each PDU

fn invoked<'a, P: Pdu<'a> + Drop>(tag: Tag, octets: &'a [u8]) -> Option<Told<'a>>
    ensures { result ≡ read_as (λ _. Told.Invoked tag)
        (whole (structured P.tag P.Members.shape P.is_tag).read octets.now) }
{
    match P::decode(octets) {
        Ok(_) => Some(Told::Invoked(tag)),
        Err(_) => None,
    }
}

fn returned<'a>(tag: Tag, invoke: Option<u16>, refusal: Option<i128>) -> Option<Told<'a>>
    ensures { result ≡ Some (Told.Returned tag invoke refusal) }
{
    Some(Told::Returned {
        tag,
        invoke,
        refusal,
    })
}

// A common diagnostic is told by its number too.
fn number_in(diagnostic: Diagnostic) -> i128
    ensures { result ≡ number_in diagnostic }
{
    match diagnostic {
        Diagnostic::Common(number) | Diagnostic::Specific(number) => number,
    }
}

fn diagnosed<T: Drop>(answer: Result<T, Diagnostic>) -> Option<i128>
    ensures { result ≡ diagnosed answer }
{
    match answer {
        Ok(_) => None,
        Err(diagnostic) => Some(number_in(diagnostic)),
    }
}

fn bind_returned(octets: &[u8]) -> Option<Told<'_>>
    ensures { result ≡ read_as bind_returned (whole bind_return.read octets.now) }
{
    match BindReturn::decode(octets) {
        Ok(answer) => returned(Tag::BindReturn, None, answer.result.err()),
        Err(_) => None,
    }
}

fn unbind_returned(octets: &[u8]) -> Option<Told<'_>>
    ensures { result ≡ read_as (λ _. Told.Returned Tag.UnbindReturn None None)
        (whole unbind_return.read octets.now) }
{
    match UnbindReturn::decode(octets) {
        Ok(_) => returned(Tag::UnbindReturn, None, None),
        Err(_) => None,
    }
}

fn aborted(octets: &[u8]) -> Option<Told<'_>>
    ensures { result ≡ read_as Told.Aborted (whole peer_abort.read octets.now) }
{
    match PeerAbort::decode(octets) {
        Ok(abort) => Some(Told::Aborted(abort.diagnostic)),
        Err(_) => None,
    }
}

fn start_returned(octets: &[u8]) -> Option<Told<'_>>
    ensures { result ≡ read_as start_returned (whole start_return.read octets.now) }
{
    match StartReturn::decode(octets) {
        Ok(answer) => returned(
            Tag::StartReturn,
            Some(answer.invoke),
            diagnosed(answer.result),
        ),
        Err(_) => None,
    }
}

fn cltu_start_returned(octets: &[u8]) -> Option<Told<'_>>
    ensures { result ≡ read_as cltu_start_returned (whole start_return_pdu.read octets.now) }
{
    match CltuStartReturn::decode(octets) {
        Ok(answer) => returned(
            Tag::StartReturn,
            Some(answer.invoke),
            diagnosed(answer.result),
        ),
        Err(_) => None,
    }
}

fn stop_returned(octets: &[u8]) -> Option<Told<'_>>
    ensures { result ≡ read_as stop_returned (whole stop_return.read octets.now) }
{
    match StopReturn::decode(octets) {
        Ok(answer) => returned(Tag::StopReturn, Some(answer.invoke), answer.result.err()),
        Err(_) => None,
    }
}

fn schedule_returned(octets: &[u8]) -> Option<Told<'_>>
    ensures { result ≡ read_as schedule_returned (whole schedule_return.read octets.now) }
{
    match ScheduleReturn::decode(octets) {
        Ok(answer) => returned(
            Tag::ScheduleReturn,
            Some(answer.invoke),
            diagnosed(answer.result),
        ),
        Err(_) => None,
    }
}

fn throw_returned(octets: &[u8]) -> Option<Told<'_>>
    ensures { result ≡ read_as throw_returned (whole throw_return_pdu.read octets.now) }
{
    match ThrowReturn::decode(octets) {
        Ok(answer) => returned(
            Tag::ReportOrThrowReturn,
            Some(answer.invoke),
            diagnosed(answer.result),
        ),
        Err(_) => None,
    }
}

fn transfer_returned(octets: &[u8]) -> Option<Told<'_>>
    ensures { result ≡ read_as transfer_returned (whole transfer_return_pdu.read octets.now) }
{
    match TransferReturn::decode(octets) {
        Ok(answer) => Some(Told::Transferred {
            invoke: answer.invoke,
            refusal: diagnosed(answer.result),
            next: answer.next,
            free: answer.free,
        }),
        Err(_) => None,
    }
}

// The number that names a parameter.
fn name_of(parameter: Value) -> u8
    ensures { result ≡ name_of parameter }
{
    match parameter {
        Value::BufferSize(_) => 4,
        Value::Mode(_) => 6,
        Value::Latency(_) => 15,
        Value::Cycle(_) => 26,
        Value::Quality(_) => 27,
        Value::Channel(_) => 28,
        Value::Timeout(_) => 29,
    }
}

fn parameter_told<'a>(invoke: u16, answer: Result<Value, Diagnostic>) -> Option<Told<'a>>
    ensures { result ≡ Some (parameter_told invoke answer) }
{
    match answer {
        Ok(parameter) => Some(Told::Parameter {
            invoke,
            name: name_of(parameter),
        }),
        Err(diagnostic) => returned(
            Tag::ParameterReturn,
            Some(invoke),
            Some(number_in(diagnostic)),
        ),
    }
}

fn parameter_returned(octets: &[u8]) -> Option<Told<'_>>
    ensures { result ≡ read_as parameter_returned (whole parameter_return.read octets.now) }
{
    match ParameterReturn::decode(octets) {
        Ok(answer) => parameter_told(answer.invoke, answer.result),
        Err(_) => None,
    }
}

fn raf_items(octets: &[u8]) -> Option<Told<'_>>
    ensures { result ≡ read_as Told.Items (whole (buffer Raf).read octets.now) }
{
    match TransferBuffer::decode_raf(octets) {
        Ok(items) => Some(Told::Items(items)),
        Err(_) => None,
    }
}

fn rcf_items(octets: &[u8]) -> Option<Told<'_>>
    ensures { result ≡ read_as Told.Items (whole (buffer Rcf).read octets.now) }
{
    match TransferBuffer::decode_rcf(octets) {
        Ok(items) => Some(Told::Items(items)),
        Err(_) => None,
    }
}

fn raf_reported(octets: &[u8]) -> Option<Told<'_>>
    ensures { result ≡ read_as raf_reported (whole raf_report.read octets.now) }
{
    match RafReport::decode(octets) {
        Ok(report) => Some(Told::Report {
            error_free: Some(report.error_free),
            numbers: (
                report.delivered,
                report.frame_sync,
                report.symbol,
                report.subcarrier,
                report.carrier,
                report.production,
            ),
        }),
        Err(_) => None,
    }
}

fn rcf_reported(octets: &[u8]) -> Option<Told<'_>>
    ensures { result ≡ read_as rcf_reported (whole rcf_report.read octets.now) }
{
    match RcfReport::decode(octets) {
        Ok(report) => Some(Told::Report {
            error_free: None,
            numbers: (
                report.delivered,
                report.frame_sync,
                report.symbol,
                report.subcarrier,
                report.carrier,
                report.production,
            ),
        }),
        Err(_) => None,
    }
}

fn cltu_reported(octets: &[u8]) -> Option<Told<'_>>
    ensures { result ≡ read_as cltu_reported (whole report_pdu.read octets.now) }
{
    match CltuReport::decode(octets) {
        Ok(report) => Some(Told::Report {
            error_free: None,
            numbers: (
                report.production,
                report.uplink,
                report.received,
                report.taken,
                report.radiated,
                report.free,
            ),
        }),
        Err(_) => None,
    }
}

fn notified(octets: &[u8]) -> Option<Told<'_>>
    ensures { result ≡ read_as notified (whole notice_pdu.read octets.now) }
{
    match Async::decode(octets) {
        Ok(notice) => Some(Told::Notice {
            kind: notice.kind,
            last_ok: notice.ok.map(|(id, _)| id),
        }),
        Err(_) => None,
    }
}
