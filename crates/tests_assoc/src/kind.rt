// What becomes of the text of a row, as a text.
use crate::bind_text::{tell_bind, tell_peer, tell_spelled};
use crate::course::tell_course;
use crate::rows::octets_of;
use crate::secret_text::{tell_numbers, tell_secret};
use assoc_core::OuterTag;
use std::alloc::{AllocError, Global};
use std::fmt::Write;

/// What a text is taken for.
#[derive(Clone, Copy)]
pub enum Kind {
    /// The name of a station and the words of a course: what its words tell.
    Course,
    /// A BIND, an identifier as a BIND spells it, the name of a peer, at one station.
    Bind,
    Spelled,
    Peer,
    /// The octets of a PDU.
    OuterTag,
    /// Credentials that are made, or checked; the numbers of a session.
    Secret,
    Numbers,
}

/// Appends what becomes of the text of a row.
pub fn tell(alloc: Global, kind: Kind, text: &str, told: &mut String) -> Result<(), AllocError> {
    match kind {
        Kind::Course => tell_course(alloc, text, told),
        Kind::Bind => tell_bind(alloc, text, told),
        Kind::Spelled => tell_spelled(alloc, text, told),
        Kind::Peer => tell_peer(alloc, text, told),
        Kind::OuterTag => tell_outer_tag(alloc, text, told),
        Kind::Secret => tell_secret(alloc, text, told),
        Kind::Numbers => tell_numbers(text, told),
    }
}

fn tell_outer_tag(alloc: Global, text: &str, told: &mut String) -> Result<(), AllocError> {
    let octets = octets_of(alloc, text)?;
    write!(told, "{:?}", OuterTag::of(&octets))
}
