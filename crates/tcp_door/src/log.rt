// What a door reports, in lines.

use crate::door_link::Reason;
use crate::door_port::Taken;
use door_model::Served;
use sle_numbers::{Numbered, PeerAbortDiagnostic};
use std::alloc::{AllocError, Global};
use std::io;
use std::net::SocketAddr;
use std::time::Duration;

// That a connection was given, and how many of its port's doors are taken, if it has several.
pub(crate) fn connected(
    alloc: Global,
    door: SocketAddr,
    peer: SocketAddr,
    taken: Taken,
) -> Result<String, AllocError> {
    let Taken { taken, doors } = taken;
    if doors < 2 {
        return format!(in alloc; "door {door}: {peer} connected\n");
    }
    format!(in alloc; "door {door}: {peer} connected, {taken} of {doors} doors taken\n")
}

// That a connection said nothing for so long.
pub(crate) fn never_heard(
    alloc: Global,
    door: SocketAddr,
    peer: SocketAddr,
    silence: Duration,
) -> Result<String, AllocError> {
    let seconds = silence.as_secs();
    format!(in alloc; "door {door}: {peer} closed: nothing heard for {seconds} s\n")
}

// That a connection can't be accepted now.
pub(crate) fn not_accepted(
    alloc: Global,
    door: SocketAddr,
    error: &io::Error,
) -> Result<String, AllocError> {
    format!(in alloc; "door {door}: can't accept a connection: {error}; it tries again\n")
}

// That a door has given its last link.
pub(crate) fn spent(alloc: Global, door: SocketAddr) -> Result<String, AllocError> {
    format!(in alloc; "door {door}: gave the last of its connections, and takes no more\n")
}

// That the serving of a connection ended so.
pub(crate) fn ended(
    alloc: Global,
    door: SocketAddr,
    peer: SocketAddr,
    how: &str,
) -> Result<String, AllocError> {
    format!(in alloc; "door {door}: {peer} ended: {how}\n")
}

// How the serving of a connection ended, in words, and why, where that wasn't its user's matter.
pub(crate) fn end_of(alloc: Global, reason: Reason, served: Served) -> Result<String, AllocError> {
    match reason {
        Reason::None => ending(alloc, served),
        Reason::Stop if is_cut(served) => copy(alloc, "stopped"),
        Reason::Stop => {
            let how = ending(alloc, served)?;
            format!(in alloc; "stopped, {how}")
        }
        Reason::Silence(limit) => {
            let seconds = limit.as_secs();
            format!(in alloc; "nothing heard for {seconds} s")
        }
    }
}

// Why a call failed.
pub(crate) fn failed(
    alloc: Global,
    door: SocketAddr,
    error: &io::Error,
) -> Result<String, AllocError> {
    format!(in alloc; "door {door}: {error}\n")
}

// True if a serving ended as it does when the door cuts it off.
fn is_cut(served: Served) -> bool {
    matches!(served, Served::PeerClosed | Served::LinkFault)
}

// How a serving ended, in words.
fn ending(alloc: Global, served: Served) -> Result<String, AllocError> {
    match served {
        Served::Unbound => copy(alloc, "unbound"),
        Served::PeerClosed => copy(alloc, "the user closed the connection"),
        Served::Denied => copy(alloc, "BIND refused"),
        Served::Range { interval, factor } => {
            format!(in alloc; "heartbeat interval {interval} or dead factor {factor} out of range")
        }
        Served::Broken(fault) => format!(in alloc; "no message of the transport: {fault}"),
        Served::Aborted { diagnostic } => {
            let word = diagnostic.word();
            format!(in alloc; "PEER-ABORT sent, {word}")
        }
        Served::PeerAborted { diagnostic } => aborted_by(alloc, diagnostic),
        Served::LinkFault => copy(alloc, "the connection broke"),
        Served::TurnsSpent => copy(alloc, "turns spent"),
        Served::Memory => copy(alloc, "no memory"),
    }
}

// What a PEER-ABORT that came says, by the diagnostic's word or else its number.
fn aborted_by(alloc: Global, diagnostic: u8) -> Result<String, AllocError> {
    match PeerAbortDiagnostic::from_number(diagnostic) {
        Some(known) => {
            let word = known.word();
            format!(in alloc; "PEER-ABORT received, {word}")
        }
        None => format!(in alloc; "PEER-ABORT received, diagnostic {diagnostic}"),
    }
}

fn copy(alloc: Global, text: &str) -> Result<String, AllocError> {
    format!(in alloc; "{text}")
}
