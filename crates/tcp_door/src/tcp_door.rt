// A door over a TCP listener.
ghost use Rattle.std.specs.Prelude.{◌≡◌, false, IfOk};

use crate::door_link::DoorLink;
use crate::door_port::DoorPort;
use crate::doorway::{Doorway, Keep};
use crate::log::{connected, end_of, ended, failed, spent};
use crate::teller::Teller;
use bell::{Bells, Waiter};
use door_model::{Door, Served};
use octet_core::{Failed, Faults, Memory};
use operator_side::{Once, Stop, report};
use station_board::DoorPen;
use std::alloc::Global;
use std::io::Write;
use std::marker::Model;
use std::net::SocketAddr;
use std::time::Duration;
use tcp_link::LinkGear;

/// A door over a TCP listener, which other doors may share. It shows nothing. It answers that no link
/// comes only where its station is to stop, or after its last link.
///
/// Each connection, how its serving ended, and what fails is reported in a line of text.
#[derive(Drop)]
pub struct TcpDoor<W: Write + Send + Drop> {
    alloc: Global,
    address: SocketAddr,
    way: Doorway,
    reports: W,
    // What is reported at the first call of the first door.
    begin: Option<Once>,
    // Where the last connection came from.
    peer: SocketAddr,
    is_out: bool,
    faults: Faults,
}

impl<W: Write + Send + Drop> Model for TcpDoor<W> {
    ghost use Rattle.tcp_door.specs.DoorState.{DoorState};

    ghost Value = { DoorState };

    ghost view = { λ door. record { is_out = door.is_out; faults = door.faults } };
}

impl<W: Write + Send + Drop> TcpDoor<W> {
    /// A door at this port, which waits with this waiter, whose links wait at most so long in a call,
    /// and which reports to this writer.
    pub fn new(
        alloc: Global,
        port: DoorPort,
        waiter: Waiter,
        wait: Duration,
        reports: W,
    ) -> Result<TcpDoor<W>, Memory>
        ensures { IfOk result (λ door. door ≡ record { is_out = false; faults = 0 }) }
    {
        let gear = LinkGear::new(alloc, waiter)?;
        let _ = gear.watch(port.descriptor());
        port.add_door()?;
        let address = port.address();
        let keep = Keep {
            gear,
            stop: None,
            bells: None,
            teller: None,
        };
        Ok(TcpDoor {
            alloc,
            address,
            way: Doorway {
                port: Some(port),
                keep: Some(keep),
                wait,
                left: u64::MAX,
            },
            reports,
            begin: None,
            peer: address,
            is_out: false,
            faults: Faults::new(),
        })
    }

    /// Has it end at this stop, which a call that waits sees within half a second, or at a ring.
    pub fn end_at(&mut self, stop: Stop)
        ensures { self.new ≡ self.old }
    {
        if let Some(keep) = &mut self.way.keep {
            keep.stop = Some(stop);
        }
    }

    /// Has it ring these bells if a user may have asked for a radiation.
    pub fn ring(&mut self, bells: Bells)
        ensures { self.new ≡ self.old }
    {
        if let Some(keep) = &mut self.way.keep {
            keep.bells = Some(bells);
        }
    }

    /// Has it and its links tell the station's board by this pen.
    pub fn tell_board(&mut self, pen: DoorPen)
        ensures { self.new ≡ self.old }
    {
        if let Some(keep) = &mut self.way.keep {
            keep.teller = Some(Teller::new(self.alloc, pen));
        }
    }

    /// Has it give so many links at most.
    pub fn give_at_most(&mut self, links: u64)
        ensures { self.new ≡ self.old }
    {
        self.way.left = links;
    }

    /// Has it report that the station began, at its first call, if it is the first door to do so.
    pub fn tell_begin(&mut self, begin: Once)
        ensures { self.new ≡ self.old }
    {
        self.begin = Some(begin);
    }

    /// Where it listens: with the system's port where it was told port 0.
    pub fn address(&self) -> SocketAddr {
        self.address
    }

    /// How often a call has failed.
    pub fn faults(&self) -> u64
        ensures { result ≡ self.now.faults }
    {
        self.faults.count()
    }

    /// What it reports to.
    pub fn reports(&self) -> &W {
        &self.reports
    }
}

// Reports that the station began, if that is due.
fn tell_begin<W: Write>(alloc: Global, begin: &mut Option<Once>, reports: &mut W) {
    if let Some(begin) = begin.take()
        && begin.come()
    {
        report(reports, format!(in alloc; "station: began\n"));
    }
}

// Reports that the door has given its last link, if it has.
fn tell_last<W: Write>(alloc: Global, door: SocketAddr, way: &Doorway, reports: &mut W) {
    if way.port.is_none() {
        report(reports, spent(alloc, door));
    }
}

// Has the board told that the door gives no further link: it failed, or the station is to stop.
fn tell_over(way: &Doorway, has_failed: bool) {
    let Some(teller) = way.teller() else {
        return;
    };
    if has_failed {
        teller.broke();
    } else if way.port.is_some() {
        teller.closed();
    }
}

// Has the board told how a serving ended, and whether the door serves no more.
fn tell_ended(way: &Doorway, how: Option<String>, served: Served) {
    let Some(teller) = way.teller() else {
        return;
    };
    teller.ended(how);
    if matches!(served, Served::TurnsSpent | Served::Memory) {
        teller.broke();
    }
}

impl<W: Write + Send + Drop> Door for TcpDoor<W> {
    ghost use Rattle.std.specs.Prelude.{None};

    type Link = DoorLink;

    ghost shown = { λ door. None };

    ghost is_out = { λ door. door.is_out };

    ghost faults = { λ door. door.faults };

    /// Gives the next connection that speaks, and waits for it. With its last link the door leaves its
    /// port, which is closed once no door has it. It fails where the system accepts none
    /// and no further try helps, and reports why.
    fn next_link(&mut self) -> Result<Option<DoorLink>, Failed> {
        tell_begin(self.alloc, &mut self.begin, &mut self.reports);
        match self.way.next(&mut self.reports) {
            Ok(Some(given)) => {
                self.is_out = true;
                self.peer = given.peer;
                report(
                    &mut self.reports,
                    connected(self.alloc, self.address, given.peer, given.taken),
                );
                tell_last(self.alloc, self.address, &self.way, &mut self.reports);
                Ok(Some(given.link))
            }
            Ok(None) => {
                tell_over(&self.way, false);
                Ok(None)
            }
            Err(error) => {
                tell_over(&self.way, true);
                report(&mut self.reports, failed(self.alloc, self.address, &error));
                self.faults.fail()
            }
        }
    }

    /// Has the link send what is left, closes it, and reports how its serving ended.
    fn give_back(&mut self, link: DoorLink, served: Served) {
        let reason = link.reason();
        self.way.take_back(link.finish());
        let how = end_of(self.alloc, reason, served).ok();
        if let Some(how) = &how {
            report(
                &mut self.reports,
                ended(self.alloc, self.address, self.peer, how.as_str()),
            );
        }
        tell_ended(&self.way, how, served);
        self.is_out = false;
    }
}
