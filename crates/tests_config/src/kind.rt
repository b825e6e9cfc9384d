// What a text is read as, as a text.
use crate::site_text::{bad_line, behind_full, site_text};
use crate::word_text::{
    Two, Versions, at_most_row, counted_line, instance_text, parts_text, plain_line, row_fault,
    word_text,
};
use sle_common::Attribute;
use std::alloc::{AllocError, Global};
use words::{
    ChannelWord, Hex, Identifier, Long, Name, Nothing, Number, Octet, OneOf, PartWord, Short, Time,
    ValueWord, When,
};

/// What a text is taken for.
#[derive(Clone, Copy)]
pub enum Kind {
    /// A configuration: its first bad line. So too behind a peer, and behind as many peers and
    /// instances as a site may have.
    Config,
    BehindPeer,
    BehindFull,
    /// A configuration: all that it says.
    Site,
    InstanceText,
    InstanceParts,
    // Words.
    Number,
    AnyNumber,
    Short,
    Octet,
    Long,
    Hex,
    Name,
    Time,
    When,
    Channel,
    Identifier,
    Value,
    Attribute,
    Part,
    // Lines of one form.
    PlainLine,
    CountedLine,
    // Words behind a first one, each behind a blank.
    TwoRow,
    NoRow,
    AtMostRow,
    ManyRow,
}

const PEER: &[u8] = b"peer MOC none sha1 60 000000000000\n";

/// What is said of a text: nothing where it is of its kind and is written as it was read.
pub fn told(alloc: Global, kind: Kind, text: &[u8]) -> Result<String, AllocError> {
    match kind {
        Kind::Config => bad_line(alloc, b"", text),
        Kind::BehindPeer => bad_line(alloc, PEER, text),
        Kind::BehindFull => behind_full(alloc, text),
        Kind::Site => site_text(alloc, text),
        Kind::InstanceText => instance_text(alloc, text),
        Kind::InstanceParts => parts_text(alloc, text),
        Kind::PlainLine => plain_line(alloc, text),
        Kind::CountedLine => counted_line(alloc, text),
        Kind::TwoRow => row_fault::<Two>(alloc, text),
        Kind::NoRow => row_fault::<Nothing>(alloc, text),
        Kind::AtMostRow => at_most_row(alloc, text),
        Kind::ManyRow => row_fault::<Versions>(alloc, text),
        word => told_word(alloc, word, text),
    }
}

fn told_word(alloc: Global, kind: Kind, word: &[u8]) -> Result<String, AllocError> {
    match kind {
        Kind::Number => word_text::<Number<3, 16_777_215>>(alloc, word),
        Kind::AnyNumber => word_text::<Number<0, 4_294_967_295>>(alloc, word),
        Kind::Short => word_text::<Short<0, 65_535>>(alloc, word),
        Kind::Octet => word_text::<Octet<1, 255>>(alloc, word),
        Kind::Long => word_text::<Long<1, 18_446_744_073_709_551_615>>(alloc, word),
        Kind::Hex => word_text::<Hex<2, 3>>(alloc, word),
        Kind::Name => word_text::<Name<3, 5>>(alloc, word),
        Kind::Time => word_text::<Time>(alloc, word),
        Kind::When => word_text::<When>(alloc, word),
        Kind::Channel => word_text::<ChannelWord>(alloc, word),
        Kind::Identifier => word_text::<Identifier>(alloc, word),
        Kind::Value => word_text::<ValueWord>(alloc, word),
        Kind::Attribute => word_text::<OneOf<Attribute>>(alloc, word),
        Kind::Part => word_text::<PartWord>(alloc, word),
        _ => String::from_str(alloc, "of no kind of word"),
    }
}
