// Expected answers are from CCSDS 911.1-B and this product's profile.
use crate::kind::Kind;
use crate::rows::wrong_row;
use std::process::Abort;

mod binds;
mod courses;
mod secrets;

// What texts are taken for, and rows of them.
const TABLE: [(Kind, &str); 14] = [
    (Kind::Course, courses::COURSES),
    (Kind::Course, courses::MESSAGES),
    (Kind::Course, courses::OUTCOMES),
    (Kind::Course, courses::LEVELS),
    (Kind::Bind, binds::BINDS),
    (Kind::Spelled, binds::SPELLED),
    (Kind::Peer, binds::PEERS),
    (Kind::OuterTag, binds::OUTER_TAGS),
    (Kind::Secret, secrets::MADE),
    (Kind::Secret, secrets::TIMES),
    (Kind::Secret, secrets::FAULTS),
    (Kind::Secret, secrets::FORMS),
    (Kind::Secret, secrets::DIGESTS),
    (Kind::Numbers, secrets::NUMBERS),
];

#[test]
fn texts_come_to_what_their_rows_say(rt: HostRuntime) {
    for (kind, rows) in TABLE {
        assert_eq!(rt; wrong_row(rt.alloc(), kind, rows), Ok(None));
    }
}
