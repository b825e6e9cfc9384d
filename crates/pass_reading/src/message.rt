// What stands on the mark of a message that a user is sent.

use explain_words::Text;
use isp1_tml::Message;
use return_pdu::Notification;
use sle_numbers::Numbered;
use user_lines::{Tag, Told};

// What stands on the mark of a message, where it says nothing of a service.
pub(crate) fn plain_word(message: &Message<'_>) -> &'static str {
    match message {
        Message::Context { .. } => "context",
        Message::Heartbeat => "heartbeat",
        Message::Pdu(_) => "not read",
    }
}

// What stands on the mark of what is told.
pub(crate) fn put_told(told: &Told<'_>, text: &mut Text) {
    match told {
        Told::Returned { tag, refusal, .. } => put_return(name_of(*tag), *refusal, text),
        Told::Transferred { refusal, .. } => put_return("CLTU", *refusal, text),
        Told::Parameter { .. } => put_return("GET", None, text),
        Told::Notice { kind, .. } => {
            put_with("notice ", i128::from(kind.number()), text);
        }
        Told::Report { numbers, .. } => put_with("report ", numbers.0, text),
        Told::Aborted(diagnostic) => put_with("abort ", i128::from(*diagnostic), text),
        _ => {}
    }
}

fn put_with(word: &str, number: i128, text: &mut Text) {
    text.put(word);
    text.put_number(number);
}

fn put_return(name: &str, refusal: Option<i128>, text: &mut Text) {
    text.put(name);
    match refusal {
        None => text.put(" ok"),
        Some(diagnostic) => put_with(" no ", diagnostic, text),
    }
}

// The short name of an operation.
fn name_of(tag: Tag) -> &'static str {
    match tag {
        Tag::Start | Tag::StartReturn => "START",
        Tag::Stop | Tag::StopReturn => "STOP",
        Tag::Schedule | Tag::ScheduleReturn => "report",
        Tag::GetParameter | Tag::ParameterReturn => "GET",
        Tag::BufferOrThrow | Tag::ReportOrThrowReturn => "THROW",
        Tag::Transfer | Tag::TransferReturn => "CLTU",
        Tag::Notify => "notice",
        Tag::CltuReport => "report",
        Tag::Bind | Tag::BindReturn => "BIND",
        Tag::Unbind | Tag::UnbindReturn => "UNBIND",
        Tag::PeerAbort => "abort",
    }
}

// What stands on the mark of frames that stand together in a buffer.
pub(crate) fn put_frames(frames: u32, text: &mut Text) {
    text.put_number(i128::from(frames));
    text.put(if frames == 1 { " frame" } else { " frames" });
}

// What stands on the mark of a notice in a buffer.
pub(crate) fn notice_word(notice: &Notification) -> &'static str {
    match notice {
        Notification::Loss { .. } => "loss",
        Notification::Production(_) => "production",
        Notification::Backlog => "backlog",
        Notification::EndOfData => "end of data",
    }
}
