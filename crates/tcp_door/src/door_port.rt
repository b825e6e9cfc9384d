// A port, and the doors that share it.

use crate::callers::{Callers, Found};
use crate::hearing::Limits;
use octet_core::Memory;
use operator_side::Uptime;
use std::alloc::Global;
use std::io;
use std::io::Write;
use std::net::{Net, SocketAddr, TcpListener, TcpStream};
use std::os::fd::{AsRawFd, RawFd};
use std::sync::atomic::{AtomicU32, Ordering};
use std::sync::{Arc, Mutex};

// How many connections that haven't spoken yet are kept for each door.
const CALLERS: usize = 8;

/// A port at which doors get their connections. It is closed once no door has it any more.
#[derive(Drop)]
pub struct DoorPort {
    shared: Arc<Shared, Global>,
}

// What the doors of a port share.
#[derive(Drop)]
struct Shared {
    address: SocketAddr,
    time: Uptime,
    limits: Limits,
    listener: TcpListener,
    callers: Mutex<Callers>,
    // How many doors it has, and how many of them have a link out.
    doors: AtomicU32,
    taken: AtomicU32,
}

/// How many of a port's doors have a link out, and how many doors it has.
#[derive(Clone, Copy, Debug, PartialEq, Eq)]
pub(crate) struct Taken {
    pub taken: u32,
    pub doors: u32,
}

impl DoorPort {
    /// Listens at this address from now on, for users that may be silent so long.
    pub fn open<R: Net<Stream = TcpStream, Listener = TcpListener>>(
        rt: &R,
        alloc: Global,
        address: SocketAddr,
        time: Uptime,
        limits: Limits,
    ) -> io::Result<DoorPort> {
        let listener = TcpListener::bind(rt, address)?;
        listener.set_nonblocking(true)?;
        let address = listener.local_addr()?;
        let shared = Shared {
            address,
            time,
            limits,
            listener,
            callers: Mutex::new(Callers::new(alloc, address, time, limits.silence)),
            doors: AtomicU32::new(0),
            taken: AtomicU32::new(0),
        };
        Ok(DoorPort {
            shared: Arc::new(alloc, shared)?,
        })
    }

    /// The same port, for another door.
    pub fn share(&self) -> Result<DoorPort, Memory> {
        Ok(DoorPort {
            shared: Arc::try_clone(&self.shared)?,
        })
    }

    /// Where it listens: with the system's port where it was told port 0.
    pub fn address(&self) -> SocketAddr {
        self.shared.address
    }

    // Its time, and how long users may be silent.
    pub(crate) fn limits(&self) -> (Uptime, Limits) {
        (self.shared.time, self.shared.limits)
    }

    // Its descriptor.
    pub(crate) fn descriptor(&self) -> RawFd {
        self.shared.listener.as_raw_fd()
    }

    // Counts a door more, and has room for its connections.
    pub(crate) fn add_door(&self) -> Result<(), Memory> {
        if let Some(mut callers) = self.shared.callers.try_lock() {
            callers.keep_more(CALLERS)?;
        }
        self.shared.doors.fetch_add(1, Ordering::SeqCst);
        Ok(())
    }

    // Looks for a connection that has spoken. While another door looks, it finds none.
    pub(crate) fn look<W: Write>(&self, reports: &mut W) -> io::Result<Found> {
        match self.shared.callers.try_lock() {
            Some(mut callers) => callers.look(&self.shared.listener, reports),
            None => Ok(Found::None(1)),
        }
    }

    // Counts a door as taken, and answers how many are.
    pub(crate) fn take(&self) -> Taken {
        let before = self.shared.taken.fetch_add(1, Ordering::SeqCst);
        Taken {
            taken: before.saturating_add(1),
            doors: self.shared.doors.load(Ordering::SeqCst),
        }
    }

    // Counts a door as free again.
    pub(crate) fn free(&self) {
        self.shared.taken.fetch_sub(1, Ordering::SeqCst);
    }
}
