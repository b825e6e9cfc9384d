// What a run can't go without: the port of its stop, and what its workers wait with.

use bell::{Bells, Waiter};
use octet_core::Memory;
use operator_side::{Listening, Place, Stamped, Stop, StopPort, Uptime, report};
use std::alloc::{AllocError, AllocFailed, Global};
use std::fs::Files;
use std::io;
use std::io::{Eprint, ErrorKind};
use std::net::{Net, SocketAddr, TcpListener, TcpStream};
use std::rt::Clock;
use tcp_door::{DoorPort, Limits};

/// Why the sockets of a run can't be had.
#[derive(Clone, Copy, Debug, PartialEq, Eq)]
pub enum SocketFault {
    /// A port of a door, the source or the stop can't be had.
    Port,
    /// The system refuses what the workers wait with.
    Wait,
    /// Memory was refused.
    Memory,
}

impl<T: Drop> From<AllocFailed<T>> for SocketFault {
    fn from(_error: AllocFailed<T>) -> SocketFault {
        SocketFault::Memory
    }
}

impl From<AllocError> for SocketFault {
    fn from(_error: AllocError) -> SocketFault {
        SocketFault::Memory
    }
}

impl From<Memory> for SocketFault {
    fn from(_memory: Memory) -> SocketFault {
        SocketFault::Memory
    }
}

/// What the workers of a run wait with, and what ends their waits.
#[derive(Drop)]
pub(crate) struct Waits {
    pub doors: Vec<Waiter>,
    pub source: Waiter,
    pub antenna: Waiter,
    pub bells: Bells,
}

impl Waits {
    // For so many doors.
    fn new<R: Net>(rt: &R, alloc: Global, count: usize) -> io::Result<Waits> {
        let mut doors = Vec::with_capacity(alloc, count)?;
        for _place in 0..count {
            doors.push(Waiter::new(rt, alloc)?)?;
        }
        let source = Waiter::new(rt, alloc)?;
        let antenna = Waiter::new(rt, alloc)?;
        let bells = Bells::new(alloc, &doors, &source, &antenna)?;
        Ok(Waits {
            doors,
            source,
            antenna,
            bells,
        })
    }
}

// Reports on standard error that something of a run can't be had.
fn tell<R: Eprint + Clock>(rt: &R, alloc: Global, line: Result<String, AllocError>) {
    report(&mut Stamped::new(rt, alloc), line);
}

// What the workers of a run with so many doors wait with. What can't be had is told on standard error.
pub(crate) fn waits_of<R: Net + Clock + Eprint>(
    rt: &R,
    alloc: Global,
    count: usize,
) -> Result<Waits, SocketFault> {
    match Waits::new(rt, alloc, count) {
        Ok(waits) => Ok(waits),
        Err(error) if error.kind() == ErrorKind::OutOfMemory => Err(SocketFault::Memory),
        Err(error) => {
            tell(rt, alloc, format!(in alloc; "station: no epoll: {error}\n"));
            Err(SocketFault::Wait)
        }
    }
}

// The stop of a run, if one may be asked for somewhere. A place that can't be had is told on standard
// error.
pub(crate) fn stop_of<R: Net<Stream = TcpStream, Listener = TcpListener> + Files + Clock + Eprint>(
    rt: &R,
    alloc: Global,
    place: Option<Place>,
) -> Result<Option<Stop>, SocketFault> {
    let Some(place) = place else {
        return Ok(None);
    };
    let name = format!(in alloc; "{place}")?;
    match StopPort::open(rt, place) {
        Ok(port) => Ok(Some(Stop::at(alloc, port)?)),
        Err(error) => Err(refused(rt, alloc, "stop", name.as_str(), &error)),
    }
}

// What listens for the source of entries. A place that can't be had is told on standard error.
pub(crate) fn listening_of<
    R: Net<Stream = TcpStream, Listener = TcpListener> + Files + Clock + Eprint,
>(rt: &R, alloc: Global, place: Place) -> Result<Listening, SocketFault> {
    let name = format!(in alloc; "{place}")?;
    match Listening::open(rt, place) {
        Ok(listening) => Ok(listening),
        Err(error) => Err(refused(rt, alloc, "feed", name.as_str(), &error)),
    }
}

// The port of doors at this address, the one that is opened already if it is. An address that can't be
// had is told on standard error.
pub(crate) fn port_of<R: Net<Stream = TcpStream, Listener = TcpListener> + Clock + Eprint>(
    rt: &R,
    alloc: Global,
    address: SocketAddr,
    (time, limits): (Uptime, Limits),
    opened: &mut Vec<DoorPort>,
) -> Result<DoorPort, SocketFault> {
    for port in opened.iter() {
        if port.address() == address {
            return Ok(port.share()?);
        }
    }
    match DoorPort::open(rt, alloc, address, time, limits) {
        Ok(port) => {
            opened.push(port.share()?)?;
            Ok(port)
        }
        Err(error) => {
            let name = format!(in alloc; "{address}")?;
            Err(refused(rt, alloc, "door", name.as_str(), &error))
        }
    }
}

// A place that can't be had, which is told on standard error.
fn refused<R: Clock + Eprint>(
    rt: &R,
    alloc: Global,
    what: &str,
    name: &str,
    error: &io::Error,
) -> SocketFault {
    let why = error.kind();
    if why == ErrorKind::OutOfMemory {
        return SocketFault::Memory;
    }
    tell(rt, alloc, format!(in alloc; "{what} {name}: {why}\n"));
    SocketFault::Port
}
