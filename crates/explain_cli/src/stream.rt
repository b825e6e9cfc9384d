// What the lines of a stream say.

use cds_time::Cds;
use explain_lines::{Antenna, Integer, StreamLine};
use explain_words::{
    Text, put_continuity, put_counts, put_locks, put_name, put_named, put_notice,
    put_parameter_name, put_room, put_statuses, put_time, put_why,
};
use return_pdu::Notification;
use sle_numbers::{LockStatus, Numbered, PeerAbortDiagnostic, ReturnProductionStatus, ServiceType};

/// Appends what a line of a stream of a service says.
pub fn put_stream_line(service: ServiceType, says: &StreamLine, text: &mut Text) {
    match says {
        StreamLine::Frame { .. } => put_frame(says, text),
        StreamLine::Loss {
            at,
            carrier,
            subcarrier,
            symbol,
        } => put_told(&lost(at, *carrier, *subcarrier, *symbol), text),
        StreamLine::Production(status) => {
            put_told(&Notification::Production(status.value()), text);
        }
        StreamLine::Backlog => put_told(&Notification::Backlog, text),
        StreamLine::End => put_told(&Notification::EndOfData, text),
        StreamLine::Done { tag } => {
            put_name(service, *tag, text);
            text.field("result", "positive");
        }
        StreamLine::Taken { tag, next, free } => {
            put_name(service, *tag, text);
            text.field("result", "positive");
            put_next(*next, *free, text);
        }
        StreamLine::Refused { tag, diagnostic } => put_refused(service, *tag, *diagnostic, text),
        StreamLine::NotTaken {
            tag,
            diagnostic,
            next,
            free,
        } => {
            put_refused(service, *tag, *diagnostic, text);
            put_next(*next, *free, text);
        }
        _ => put_other(service, says, text),
    }
}

// What a line says that is neither of items nor of returns.
fn put_other(service: ServiceType, says: &StreamLine, text: &mut Text) {
    match says {
        StreamLine::Notice(kind) => {
            text.title("ASYNC-NOTIFY invocation");
            text.field("cltuNotification", kind.word());
        }
        StreamLine::Report(numbers) => put_report(service, numbers.as_slice(), text),
        StreamLine::Aborted(diagnostic) => {
            text.title("PEER-ABORT invocation");
            put_named::<PeerAbortDiagnostic>("diagnostic", i128::from(*diagnostic), text);
        }
        StreamLine::Parameter(name) => {
            text.title("GET-PARAMETER return");
            put_parameter_name("parameterName", i128::from(*name), text);
        }
        StreamLine::Invoked { tag } => put_name(service, *tag, text),
        StreamLine::Bad { place } => {
            text.counted(
                "no message: the octets from ",
                i128::from(*place),
                " on aren't read",
            );
        }
        _ => {}
    }
}

fn lost(at: &Cds, carrier: LockStatus, subcarrier: LockStatus, symbol: LockStatus) -> Notification {
    Notification::Loss {
        at: *at,
        carrier,
        subcarrier,
        symbol,
    }
}

fn put_told(notice: &Notification, text: &mut Text) {
    text.title("SYNC-NOTIFY invocation");
    put_notice(notice, text);
}

fn put_frame(says: &StreamLine, text: &mut Text) {
    if let StreamLine::Frame {
        at,
        quality,
        missing,
        antenna,
        octets,
    } = says
    {
        text.title("TRANSFER-DATA invocation");
        put_time("earthReceiveTime", at, text);
        if let Some(quality) = quality {
            text.field("deliveredFrameQuality", quality.word());
        }
        put_continuity(*missing, text);
        put_antenna(antenna, text);
        text.hex("data", octets.as_slice());
    }
}

fn put_refused(service: ServiceType, tag: u8, diagnostic: Integer, text: &mut Text) {
    put_name(service, tag, text);
    put_why(service, tag, diagnostic.value(), text);
}

fn put_antenna(antenna: &Antenna, text: &mut Text) {
    match antenna {
        Antenna::Global(octets) => text.hex("antennaId, globalForm", octets.as_slice()),
        Antenna::Local(octets) => text.hex("antennaId, localForm", octets.as_slice()),
    }
}

// What the return of TRANSFER-DATA says beside.
fn put_next(next: u32, free: Integer, text: &mut Text) {
    text.number("cltuIdentification", i128::from(next));
    put_room(free.value(), text);
}

// A status report by its numbers: seven of RAF, six of the other services.
fn put_report(service: ServiceType, numbers: &[Integer], text: &mut Text) {
    text.title("STATUS-REPORT invocation");
    match (service, numbers) {
        (ServiceType::RtnAllFrames, [error_free, rest @ ..]) => {
            text.number("errorFreeFrameNumber", error_free.value());
            put_frames(rest, text);
        }
        (ServiceType::RtnChFrames, numbers) => put_frames(numbers, text),
        (_, numbers) => put_cltus(numbers, text),
    }
}

fn put_frames(numbers: &[Integer], text: &mut Text) {
    if let [
        delivered,
        frame_sync,
        symbol,
        subcarrier,
        carrier,
        production,
    ] = numbers
    {
        text.number("deliveredFrameNumber", delivered.value());
        put_locks(
            [
                frame_sync.value(),
                symbol.value(),
                subcarrier.value(),
                carrier.value(),
            ],
            text,
        );
        put_named::<ReturnProductionStatus>("productionStatus", production.value(), text);
    } else {
        text.field(
            "not read",
            "a report of this service has another number of words",
        );
    }
}

fn put_cltus(numbers: &[Integer], text: &mut Text) {
    if let [production, uplink, received, processed, radiated, free] = numbers {
        put_statuses(production.value(), uplink.value(), text);
        put_counts(
            [received.value(), processed.value(), radiated.value()],
            text,
        );
        put_room(free.value(), text);
    } else {
        text.field(
            "not read",
            "a report of this service has another number of words",
        );
    }
}
