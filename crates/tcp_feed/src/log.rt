// What a source of entries reports, in lines.

use operator_side::{Peer, Place};
use std::alloc::{AllocError, Global};
use std::io;

// Why a source's connection was ended by this side.
#[derive(Drop)]
pub(crate) enum Fault {
    // A line says no entry.
    Line,
    // A line is longer than a frame needs.
    Long,
    // The stream broke.
    Stream(io::Error),
}

// That a source connected.
pub(crate) fn connected(alloc: Global, place: &Place, peer: Peer) -> Result<String, AllocError> {
    format!(in alloc; "feed {place}: {peer} connected\n")
}

// That a source takes the place of another.
pub(crate) fn follows(
    alloc: Global,
    place: &Place,
    peer: Peer,
    older: Peer,
) -> Result<String, AllocError> {
    format!(in alloc; "feed {place}: {peer} connected, and takes the place of {older}\n")
}

// That a source's connection ended after so many lines, and whether one was cut short.
pub(crate) fn ended(
    alloc: Global,
    place: &Place,
    peer: Peer,
    lines: u64,
    is_cut: bool,
) -> Result<String, AllocError> {
    if !is_cut {
        return format!(in alloc; "feed {place}: {peer} ended after line {lines}\n");
    }
    let next = lines.saturating_add(1);
    format!(in alloc;
        "feed {place}: {peer} ended after line {lines}; line {next} was cut short and isn't stored\n"
    )
}

// That a source's connection was ended at a line, and why.
pub(crate) fn refused(
    alloc: Global,
    place: &Place,
    peer: Peer,
    lines: u64,
    fault: &Fault,
) -> Result<String, AllocError> {
    let line = lines.saturating_add(1);
    match fault {
        Fault::Line => {
            format!(in alloc; "feed {place}: {peer} ended at line {line}: it says no entry\n")
        }
        Fault::Long => {
            format!(in alloc; "feed {place}: {peer} ended at line {line}: it is too long\n")
        }
        Fault::Stream(error) => {
            format!(in alloc; "feed {place}: {peer} ended at line {line}: {error}\n")
        }
    }
}

// That a connection was closed that isn't heard.
pub(crate) fn closed(
    alloc: Global,
    place: &Place,
    peer: Peer,
    why: &str,
) -> Result<String, AllocError> {
    format!(in alloc; "feed {place}: {peer} closed: {why}\n")
}

// That a connection can't be accepted now.
pub(crate) fn not_accepted(
    alloc: Global,
    place: &Place,
    error: &io::Error,
) -> Result<String, AllocError> {
    format!(in alloc; "feed {place}: can't accept a connection: {error}; it tries again\n")
}

// That no connection can be accepted any more.
pub(crate) fn never(alloc: Global, place: &Place, error: &io::Error) -> Result<String, AllocError> {
    format!(in alloc; "feed {place}: can't accept a connection: {error}\n")
}
