// What octets are read as in the place of an entry, as a text.
ghost use Rattle.std.specs.Prelude.{◌≤◌, length};

use octet_core::{Memory, Octets};
use record_form::{
    Entry, EntryFault, EntryRef, entry_length, read_entry, read_entry_at, read_entry_ref_at,
    write_entry,
};
use sle_numbers::Numbered;
use std::alloc::{AllocError, Global};
use std::fmt::Write;

// Octets, but of over 1,000 their number alone.
fn tell_frame_octets(octets: &[u8], told: &mut String) -> Result<(), AllocError> {
    if octets.len() <= 1_000 {
        return write!(told, "{octets:?} ");
    }
    let first = octets.first().copied();
    let is_one = octets.iter().all(|octet| first == Some(*octet));
    write!(told, "{} octets, all alike: {is_one} ", octets.len())
}

// An entry: a frame by its fields.
fn tell_fields(entry: &Entry, told: &mut String) -> Result<(), AllocError> {
    match entry {
        Entry::Frame {
            ert,
            quality,
            antenna,
            lost,
            octets,
        } => {
            let antenna = antenna.as_slice();
            write!(
                told,
                "frame {ert:?} {} {antenna:?} {lost} ",
                quality.number()
            )?;
            tell_frame_octets(octets.as_slice(), told)
        }
        _ => write!(told, "{entry:?} "),
    }
}

// Whether an entry is written as these octets, whose number is told beforehand.
fn is_written_so(alloc: Global, entry: &Entry, octets: &[u8]) -> Result<bool, Memory> {
    if !entry.is_valid() || !entry.is_storable() {
        return Ok(false);
    }
    let mut written = Octets::new(alloc);
    write_entry(entry, &mut written)?;
    Ok(written.as_slice() == octets && entry_length(entry) == octets.len() as u64)
}

fn tell_written(
    alloc: Global,
    entry: &Entry,
    length: usize,
    octets: &[u8],
    told: &mut String,
) -> Result<(), AllocError> {
    tell_fields(entry, told)?;
    if length == octets.len() && is_written_so(alloc, entry, octets)? {
        Ok(())
    } else {
        told.push_str("written otherwise")
    }
}

/// Of octets: the entry, or why there is none. Where they aren't those of the entry, it is said.
pub fn tell_entry(alloc: Global, octets: &[u8], told: &mut String) -> Result<(), AllocError> {
    match read_entry(alloc, octets) {
        Ok((entry, length)) => tell_written(alloc, &entry, length, octets, told),
        Err(fault) => write!(told, "{fault}"),
    }
}

// Whether an entry is lent as it is read, also once more by its copy.
fn is_lent_so(alloc: Global, lent: EntryRef<'_>, entry: &Entry) -> Result<bool, Memory> {
    let copy = lent.to_entry(alloc)?;
    let again = copy.lend().to_entry(alloc)?;
    Ok(copy == *entry && again == *entry)
}

// Whether the entry at a place is lent so, with its end.
fn is_read_so(
    alloc: Global,
    place: usize,
    octets: &[u8],
    lent: EntryRef<'_>,
    end: usize,
) -> Result<bool, Memory>
    requires { place ≤ length octets.now }
{
    match read_entry_at(alloc, octets, place) {
        Ok((entry, same_end)) => Ok(is_lent_so(alloc, lent, &entry)? && end == same_end),
        Err(_) => Ok(false),
    }
}

// Whether the entry at a place is refused so.
fn is_refused_so(alloc: Global, place: usize, octets: &[u8], fault: EntryFault) -> bool
    requires { place ≤ length octets.now }
{
    match read_entry_at(alloc, octets, place) {
        Ok(_) => false,
        Err(same_fault) => fault == same_fault,
    }
}

/// The entry that is lent at this place and where it ends, or why there is none. Where one is read
/// there otherwise, it is said.
pub fn tell_lent(
    alloc: Global,
    place: usize,
    octets: &[u8],
    told: &mut String,
) -> Result<(), AllocError>
    requires { place ≤ length octets.now }
{
    let is_same = match read_entry_ref_at(octets, place) {
        Ok((entry, end)) => {
            write!(told, "{entry:?} up to {end} ")?;
            is_read_so(alloc, place, octets, entry, end)?
        }
        Err(fault) => {
            write!(told, "{fault} ")?;
            is_refused_so(alloc, place, octets, fault)
        }
    };
    told.push_str(if is_same { "" } else { "read otherwise" })
}
