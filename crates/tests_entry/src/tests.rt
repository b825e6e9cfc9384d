// The octets of entries were written out by hand from the form of the file, headers of frames from
// the layouts of CCSDS 132.0-B and 732.0-B, bit by bit.
use crate::kind::Kind;
use crate::rows::wrong_row;
use std::process::Abort;

mod entries;
mod selections;

// What texts are taken for, and rows of them.
const TABLE: [(Kind, &str); 9] = [
    (Kind::Entry, entries::ENTRIES),
    (Kind::Entry, entries::FAULTS),
    (Kind::FrameTime, entries::TIMES),
    (Kind::Lent, entries::LENT),
    (Kind::Channel, selections::HEADERS),
    (Kind::Selection, selections::CHANNELS),
    (Kind::Selection, selections::QUALITIES),
    (Kind::Selection, selections::TIMES),
    (Kind::Selection, selections::PLACES),
];

#[test]
fn texts_come_to_what_their_rows_say(rt: HostRuntime) {
    for (kind, rows) in TABLE {
        assert_eq!(rt; wrong_row(rt.alloc(), kind, rows), Ok(None));
    }
}
