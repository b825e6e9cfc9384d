// What a run is watched by.

use crate::serving::{StatusSide, millis_of};
use bell::Waiter;
use octet_core::Memory;
use operator_side::{Place, Stamped, SteadyTime, Stop, report};
use station_board::{Beginning, Board};
use status_port::StatusPort;
use std::alloc::Global;
use std::fs::Files;
use std::hash::RandomState;
use std::io;
use std::io::{Eprint, ErrorKind};
use std::net::{Net, SocketAddr, TcpListener, TcpStream};
use std::random::RandomSource;
use std::rt::Clock;
use std::time::Duration;

// How many milliseconds a sending of the antenna may take before its worker counts as stuck.
const SEND_MILLIS: u64 = 60_000;

/// What a status page is asked to be, and where.
#[derive(Debug, Drop)]
pub struct StatusPlace {
    /// Where it is served.
    pub place: Place,
    /// Which program it says that it is.
    pub version: String,
    /// For how long no entry may come before that counts as trouble. Zero is for ever.
    pub expected: Duration,
}

/// What a page is served for.
#[derive(Drop)]
pub(crate) struct Watched<'a> {
    pub doors: &'a [SocketAddr],
    pub links: u64,
    pub source: &'a str,
    pub steady: Option<SteadyTime>,
    pub stop: Option<&'a Stop>,
}

// What a run is watched by. What can't be had is told on standard error, and the run goes on without.
pub(crate) fn status_of<
    R: Net<Stream = TcpStream, Listener = TcpListener> + Files + Clock + Eprint + RandomSource,
>(rt: &R, alloc: Global, status: Option<StatusPlace>, watched: &Watched<'_>) -> Option<StatusSide> {
    let status = status?;
    let name = {
        let place = &status.place;
        format!(in alloc; "{place}").ok()?
    };
    match side_of(rt, alloc, status, watched) {
        Ok(side) => Some(side),
        Err(error) => {
            let (name, why) = (name.as_str(), error.kind());
            let line = format!(in alloc; "status {name}: {why}; no status page is served\n");
            report(&mut Stamped::new(rt, alloc), line);
            None
        }
    }
}

// The same, or why it can't be had.
fn side_of<R: Net<Stream = TcpStream, Listener = TcpListener> + Files + Clock + RandomSource>(
    rt: &R,
    alloc: Global,
    status: StatusPlace,
    watched: &Watched<'_>,
) -> io::Result<StatusSide> {
    let StatusPlace {
        place,
        version,
        expected,
    } = status;
    let port = StatusPort::open(rt, alloc, place, RandomState::new(rt)?)?;
    let waiter = Waiter::new(rt, alloc)?;
    waiter.watch(port.descriptor())?;
    let beginning = Beginning {
        at: millis_of(rt.since_1970().ok()),
        version: version.as_str(),
        source: watched.source,
        doors: watched.doors,
        links: watched.links,
        expected: millis_of(Some(expected)),
        send_limit: SEND_MILLIS,
    };
    let board = match Board::new(alloc, &beginning) {
        Ok(board) => board,
        Err(Memory) => return Err(ErrorKind::OutOfMemory.into()),
    };
    Ok(StatusSide {
        board,
        port,
        waiter,
        steady: watched.steady,
        stop: shared_stop(watched.stop),
        capacity: None,
    })
}

// The same stop once more.
fn shared_stop(stop: Option<&Stop>) -> Option<Stop> {
    stop?.share().ok()
}
