// What is told of the text of a row, as a text.
use crate::entry_text::{tell_entry, tell_lent};
use crate::rows::{first_of, octets_of};
use crate::selection_text::tell_selection;
use frame_select::channel_of;
use record_form::read_ert_at;
use std::alloc::{AllocError, Global};
use std::fmt::Write;

/// What a text is taken for.
#[derive(Clone, Copy)]
pub enum Kind {
    /// The octets of an entry.
    Entry,
    /// A place, and octets: the entry that is lent there.
    Lent,
    /// A place, and octets: the time of a frame there.
    FrameTime,
    /// The octets of a frame: its channel.
    Channel,
    /// A selection and an entry: whether it is admitted.
    Selection,
}

/// Appends what is told of the text of a row.
pub fn tell(alloc: Global, kind: Kind, text: &str, told: &mut String) -> Result<(), AllocError> {
    match kind {
        Kind::Selection => tell_selection(alloc, text, told),
        Kind::Lent | Kind::FrameTime => {
            let (place, text) = first_of(text);
            let octets = octets_of(alloc, text)?;
            tell_at(alloc, kind, place.parse().unwrap_or(0), &octets, told)
        }
        _ => {
            let octets = octets_of(alloc, text)?;
            tell_octets(alloc, kind, &octets, told)
        }
    }
}

fn tell_octets(
    alloc: Global,
    kind: Kind,
    octets: &[u8],
    told: &mut String,
) -> Result<(), AllocError> {
    match kind {
        Kind::Entry => tell_entry(alloc, octets, told),
        _ => write!(told, "{:?}", channel_of(octets)),
    }
}

fn tell_at(
    alloc: Global,
    kind: Kind,
    place: usize,
    octets: &[u8],
    told: &mut String,
) -> Result<(), AllocError> {
    if place > octets.len() {
        return told.push_str("no such place");
    }
    match kind {
        Kind::Lent => tell_lent(alloc, place, octets, told),
        _ => write!(told, "{:?}", read_ert_at(octets, place)),
    }
}
