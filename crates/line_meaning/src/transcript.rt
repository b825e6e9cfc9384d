// What the lines of a transcript say.

use drill_text::EndWord;
use explain_lines::Transcribed;
use explain_words::{DIAGNOSTIC, Text, put_messages, put_named};
use sle_numbers::{Numbered, PeerAbortDiagnostic, ReturnStartDiagnostic, ServiceType};

/// Appends what a line of a transcript says, whose messages are of a service.
pub fn put_transcript_line(service: ServiceType, says: &Transcribed, text: &mut Text) {
    match says {
        Transcribed::Sent { c, octets } => {
            put_connection(*c, " was sent", text);
            put_messages(service, octets.as_slice(), text);
        }
        Transcribed::Stalled { c } => put_connection(*c, " took nothing: the offer stalled", text),
        Transcribed::Discarded { c, n } => put_discarded(*c, *n, text),
        Transcribed::Ended { c, word } => put_end(*c, *word, text),
        Transcribed::Radiated { id, octets } => {
            text.counted("CLTU ", i128::from(*id), " was radiated");
            text.hex("cltuData", octets.as_slice());
        }
        Transcribed::Expired { id } => {
            text.counted("CLTU ", i128::from(*id), " expired before its radiation");
        }
        Transcribed::Waits => text.title("the next CLTU waits for its earliest time"),
        Transcribed::Idle => text.title("no CLTU waits"),
        Transcribed::Failed { id } => {
            text.counted(
                "CLTU ",
                i128::from(*id),
                " wasn't radiated: its sending failed",
            );
        }
        Transcribed::Refused => {
            text.title("the START was refused");
            text.field(DIAGNOSTIC, ReturnStartDiagnostic::InvalidStopTime.word());
        }
        _ => put_stored(says, text),
    }
}

// What a line says of the archive.
fn put_stored(says: &Transcribed, text: &mut Text) {
    match says {
        Transcribed::Backward => text.title(
            "an entry was refused: its time is before an earlier one's",
        ),
        Transcribed::TooLong => text.title("a frame was refused: it has over 65536 octets"),
        Transcribed::Full { need, free } => put_full(*need, *free, text),
        Transcribed::Fault => text.title(
            "a call of the disk failed in a store: the archive is opened again",
        ),
        Transcribed::Crash => text.title(
            "the power failed: the archive is opened again, and no connection is left",
        ),
        Transcribed::Archive { entries } => {
            text.counted("entries of the archive: ", i128::from(*entries), "");
        }
        _ => {}
    }
}

fn put_full(need: u64, free: u64, text: &mut Text) {
    text.title("an entry was refused: the archive is full");
    text.number("octets that it needs", i128::from(need));
    text.number("octets that are free", i128::from(free));
}

// A line's connection; the desk is connection 0.
fn put_connection(c: u32, what: &str, text: &mut Text) {
    if c == 0 {
        text.begin_title();
        text.put("the desk");
        text.put(what);
        text.end();
    } else {
        text.counted("connection ", i128::from(c), what);
    }
}

fn put_discarded(c: u32, n: u32, text: &mut Text) {
    put_connection(c, " was too slow: a transfer buffer was discarded", text);
    text.number("items", i128::from(n));
}

fn put_end(c: u32, word: EndWord, text: &mut Text) {
    match word {
        EndWord::Unbound => put_connection(c, " ended: its user is unbound", text),
        EndWord::Closed => put_connection(c, " ended: its user closed it", text),
        EndWord::Denied => put_connection(c, " ended: its BIND was denied", text),
        EndWord::Range => put_connection(c, " ended: its context is out of the site's range", text),
        EndWord::Fault => put_connection(c, " ended: its link failed", text),
        EndWord::Broken(fault) => put_broken(c, fault, text),
        EndWord::Aborted(diagnostic) => {
            put_connection(c, " ended: the provider aborted it", text);
            put_abort(diagnostic, text);
        }
        EndWord::PeerAborted(diagnostic) => {
            put_connection(c, " ended: its user aborted it", text);
            put_abort(diagnostic, text);
        }
    }
}

fn put_abort(diagnostic: u8, text: &mut Text) {
    put_named::<PeerAbortDiagnostic>("diagnostic", i128::from(diagnostic), text);
}

// The faults of a stream, by their numbers from 1 on.
const FAULTS: [&str; 5] = [
    "a message's first octet is none of 1 to 3",
    "one of the three octets behind a message's first isn't 0",
    "a context's length isn't 12, or a heartbeat's isn't 0",
    "a PDU has over 1048576 octets",
    "a context doesn't begin with ISP1 and its version",
];

fn put_broken(c: u32, fault: u8, text: &mut Text) {
    put_connection(c, " ended: its octets aren't ISP1's", text);
    match FAULTS.get(usize::from(fault).wrapping_sub(1)) {
        Some(words) => text.field("fault", words),
        None => text.number("fault, none of 1 to 5", i128::from(fault)),
    }
}
