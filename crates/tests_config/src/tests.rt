// What is expected was taken from the grammar by hand.
use crate::kind::{Kind, told};
use crate::rows::wrong_row;
use std::alloc::{AllocError, Global};
use std::process::Abort;

mod causes;
mod fields;
mod identifiers;
mod lines;
mod sites;
mod texts;
mod word_rows;

// What texts are taken for, and rows of them.
const TABLE: [(Kind, &str); 41] = [
    (Kind::Config, causes::FIRST_WORDS),
    (Kind::Config, causes::COUNTS),
    (Kind::Config, causes::SETTINGS_GIVEN_TWICE),
    (Kind::Config, causes::NAMES_GIVEN_TWICE),
    (Kind::Config, causes::OWNERS),
    (Kind::Config, causes::SECOND_FORWARD),
    (Kind::BehindFull, causes::THIRTY_THIRD),
    (Kind::Config, fields::SETTINGS),
    (Kind::Config, fields::PEERS),
    (Kind::BehindPeer, fields::RETURN),
    (Kind::BehindPeer, fields::FORWARD),
    (Kind::InstanceParts, identifiers::PARTS),
    (Kind::InstanceText, identifiers::TEXTS),
    (Kind::InstanceText, identifiers::FAULTS),
    (Kind::PlainLine, lines::PLAIN),
    (Kind::CountedLine, lines::COUNTED),
    (Kind::TwoRow, lines::TWO),
    (Kind::NoRow, lines::NO),
    (Kind::AtMostRow, lines::AT_MOST),
    (Kind::ManyRow, lines::MANY),
    (Kind::Site, sites::SITES),
    (Kind::Site, sites::STATION),
    (Kind::Site, sites::EXAMPLE),
    (Kind::Config, texts::NOTHING),
    (Kind::Config, texts::BLANKS),
    (Kind::Number, word_rows::NUMBER),
    (Kind::AnyNumber, word_rows::ANY_NUMBER),
    (Kind::Short, word_rows::SHORT),
    (Kind::Octet, word_rows::OCTET),
    (Kind::Long, word_rows::LONG),
    (Kind::Hex, word_rows::HEX),
    (Kind::Name, word_rows::NAME),
    (Kind::Time, word_rows::TIME),
    (Kind::Time, word_rows::NO_TIME),
    (Kind::When, word_rows::TIME),
    (Kind::When, word_rows::NONE),
    (Kind::Channel, word_rows::CHANNEL),
    (Kind::Identifier, word_rows::IDENTIFIER),
    (Kind::Attribute, word_rows::ATTRIBUTE),
    (Kind::Part, word_rows::PART),
    (Kind::Value, word_rows::VALUE),
];

#[test]
fn texts_are_read_as_their_rows_say(rt: HostRuntime) {
    for (kind, rows) in TABLE {
        assert_eq!(rt; wrong_row(rt.alloc(), kind, rows), Ok(None));
    }
}

// Octets that are no characters, and what they are read as.
const OCTETS: [(Kind, &[u8], &str); 2] = [
    (Kind::Config, b"\n\n#\n# a comment \xff\x00\r\n", ""),
    (Kind::Name, b"ab\x80", "bad"),
];

fn is_told(alloc: Global, kind: Kind, text: &[u8], value: &str) -> Result<bool, AllocError> {
    Ok(told(alloc, kind, text)?.as_str() == value)
}

#[test]
fn octets_are_read_as_they_should_be(rt: HostRuntime) {
    for (kind, text, value) in OCTETS {
        assert_eq!(rt; is_told(rt.alloc(), kind, text, value), Ok(true));
    }
}
