// Where a door's connections come in.

use crate::callers::{Caller, Found};
use crate::door_link::DoorLink;
use crate::door_port::{DoorPort, Taken};
use crate::hearing::Hearing;
use crate::teller::Teller;
use bell::Bells;
use operator_side::{Stop, Uptime};
use std::io;
use std::io::{ErrorKind, Write};
use std::net::SocketAddr;
use std::time::Duration;
use tcp_link::{LinkGear, TcpLink};

// How often a call waits at most: for more years than anybody counts.
const WAITS: u64 = u64::MAX;

/// What a door has that its links need too.
#[derive(Drop)]
pub(crate) struct Keep {
    pub gear: LinkGear,
    pub stop: Option<Stop>,
    pub bells: Option<Bells>,
    pub teller: Option<Teller>,
}

impl Keep {
    // True once the station is to stop.
    pub fn is_stopped(&self) -> bool {
        self.stop.as_ref().is_some_and(Stop::is_asked)
    }
}

// A port, what the door's links are made of, and how many may still be given.
#[derive(Drop)]
pub(crate) struct Doorway {
    // None once the door has given its last link.
    pub port: Option<DoorPort>,
    // None while a link is out, which has it.
    pub keep: Option<Keep>,
    pub wait: Duration,
    pub left: u64,
}

/// A connection, and how many of its port's doors are taken by now.
#[derive(Drop)]
pub(crate) struct Given {
    pub link: DoorLink,
    pub peer: SocketAddr,
    pub taken: Taken,
}

impl Doorway {
    // The next connection's link, for which it waits; none once the station is to stop, or after the
    // last one.
    pub fn next<W: Write>(&mut self, reports: &mut W) -> io::Result<Option<Given>> {
        let Some(caller) = self.wait_for_caller(reports)? else {
            return Ok(None);
        };
        let (Some(port), Some(keep)) = (&self.port, self.keep.take()) else {
            return Err(ErrorKind::NotConnected.into());
        };
        let (time, limits) = port.limits();
        let taken = port.take();
        let Caller { stream, peer, .. } = caller;
        let Keep {
            gear,
            stop,
            bells,
            mut teller,
        } = keep;
        let link = TcpLink::over(stream, gear, self.wait);
        self.left = self.left.saturating_sub(1);
        if let Some(teller) = &mut teller {
            teller.connected(peer, self.left == 0);
        }
        if self.left == 0 {
            self.port = None;
        }
        Ok(Some(Given {
            link: DoorLink::new(link, stop, bells, Hearing::new(time, limits), teller),
            peer,
            taken,
        }))
    }

    // Takes back what a link had.
    pub fn take_back(&mut self, keep: Keep) {
        self.keep = Some(keep);
        if let Some(port) = &self.port {
            port.free();
        }
    }

    // What tells the board of the door, unless a link has it.
    pub fn teller(&self) -> Option<&Teller> {
        self.keep.as_ref()?.teller.as_ref()
    }

    // Waits for a connection that speaks.
    fn wait_for_caller<W: Write>(&mut self, reports: &mut W) -> io::Result<Option<Caller>> {
        for _ in 0..WAITS {
            match self.look(reports)? {
                Look::Caller(caller) => return Ok(Some(caller)),
                Look::Wait(millis) => self.rest(millis)?,
                Look::End => return Ok(None),
            }
        }
        Ok(None)
    }

    // Looks once.
    fn look<W: Write>(&self, reports: &mut W) -> io::Result<Look> {
        let (Some(port), Some(keep)) = (&self.port, &self.keep) else {
            return Ok(Look::End);
        };
        if keep.is_stopped() {
            return Ok(Look::End);
        }
        match port.look(reports)? {
            Found::Caller(caller) => Ok(Look::Caller(caller)),
            Found::None(millis) => Ok(Look::Wait(millis)),
        }
    }

    // Waits for a connection, a ring, or so long.
    fn rest(&mut self, millis: u64) -> io::Result<()> {
        match &mut self.keep {
            Some(keep) => keep.gear.wait(Duration::from_millis(millis)),
            None => Ok(()),
        }
    }
}

// What a look comes to.
#[derive(Drop)]
enum Look {
    Caller(Caller),
    Wait(u64),
    End,
}
