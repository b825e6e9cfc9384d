// The names of PDUs, and the tables of their diagnostics.

use crate::text::Text;
use crate::values::{DIAGNOSTIC, put_named, value_of};
use fcltu_numbers::{CltuStartDiagnostic, CltuThrowEventDiagnostic, CltuTransferDataDiagnostic};
use sle_numbers::{
    BindDiagnostic, CommonDiagnostic, GetParameterDiagnostic, Numbered, ReturnStartDiagnostic,
    ScheduleDiagnostic, ServiceType,
};
use user_lines::Tag;

/// Appends the name of the PDU whose outer tag has this number, as a title.
pub fn put_name(service: ServiceType, number: u8, text: &mut Text) {
    match tag_numbered(number) {
        Some(tag) => text.title(name_of(service, tag)),
        None => text.counted(
            "a PDU with the tag ",
            i128::from(number),
            ", which none has",
        ),
    }
}

// The tag of a number: below 31 it is in one identifier octet, else in two.
fn tag_numbered(number: u8) -> Option<Tag> {
    if number < 31 {
        Tag::of(&[0xa0 + number])
    } else {
        Tag::of(&[0xbf, number])
    }
}

/// Appends why the operation was refused whose return has this number, where a reason that all
/// share stands by its number too.
pub fn put_why(service: ServiceType, number: u8, diagnostic: i128, text: &mut Text) {
    match tag_numbered(number) {
        Some(Tag::BindReturn) => put_named::<BindDiagnostic>(DIAGNOSTIC, diagnostic, text),
        Some(Tag::StartReturn) => put_why_no_start(service, diagnostic, text),
        Some(Tag::ScheduleReturn) => put_any::<ScheduleDiagnostic>(diagnostic, text),
        Some(Tag::ParameterReturn) => put_any::<GetParameterDiagnostic>(diagnostic, text),
        Some(Tag::ReportOrThrowReturn) => put_any::<CltuThrowEventDiagnostic>(diagnostic, text),
        Some(Tag::TransferReturn) => put_any::<CltuTransferDataDiagnostic>(diagnostic, text),
        _ => put_named::<CommonDiagnostic>(DIAGNOSTIC, diagnostic, text),
    }
}

fn put_why_no_start(service: ServiceType, diagnostic: i128, text: &mut Text) {
    match service {
        ServiceType::FwdCltu => put_any::<CltuStartDiagnostic>(diagnostic, text),
        _ => put_any::<ReturnStartDiagnostic>(diagnostic, text),
    }
}

// Appends a reason that all operations share, or one of a table.
fn put_any<T: Numbered>(diagnostic: i128, text: &mut Text) {
    match value_of::<CommonDiagnostic>(diagnostic) {
        Some(common) => text.field(DIAGNOSTIC, common.word()),
        None => put_named::<T>(DIAGNOSTIC, diagnostic, text),
    }
}

/// The name of the PDU with this tag in a service.
pub fn name_of(service: ServiceType, tag: Tag) -> &'static str {
    match tag {
        Tag::Start => "START invocation",
        Tag::StartReturn => "START return",
        Tag::Stop => "STOP invocation",
        Tag::StopReturn => "STOP return",
        Tag::Schedule => "SCHEDULE-STATUS-REPORT invocation",
        Tag::ScheduleReturn => "SCHEDULE-STATUS-REPORT return",
        Tag::GetParameter => "GET-PARAMETER invocation",
        Tag::ParameterReturn => "GET-PARAMETER return",
        Tag::BufferOrThrow => buffer_or_throw(service),
        Tag::ReportOrThrowReturn => report_or_throw_return(service),
        Tag::Transfer => "TRANSFER-DATA invocation",
        Tag::TransferReturn => "TRANSFER-DATA return",
        Tag::Notify => "ASYNC-NOTIFY invocation",
        Tag::CltuReport => "STATUS-REPORT invocation",
        Tag::Bind => "BIND invocation",
        Tag::BindReturn => "BIND return",
        Tag::Unbind => "UNBIND invocation",
        Tag::UnbindReturn => "UNBIND return",
        Tag::PeerAbort => "PEER-ABORT invocation",
    }
}

fn buffer_or_throw(service: ServiceType) -> &'static str {
    match service {
        ServiceType::RtnAllFrames | ServiceType::RtnChFrames => "TRANSFER-BUFFER",
        ServiceType::FwdCltu => "THROW-EVENT invocation",
    }
}

fn report_or_throw_return(service: ServiceType) -> &'static str {
    match service {
        ServiceType::RtnAllFrames | ServiceType::RtnChFrames => "STATUS-REPORT invocation",
        ServiceType::FwdCltu => "THROW-EVENT return",
    }
}
