// What a door and its links tell the station's board.

use crate::bind_tap::BindTap;
use octet_core::Offer;
use station_board::DoorPen;
use std::alloc::Global;
use std::net::SocketAddr;

/// A door's place on the board, and what it hears of its user's BIND.
#[derive(Drop)]
pub(crate) struct Teller {
    alloc: Global,
    pen: DoorPen,
    tap: BindTap,
}

impl Teller {
    /// Tells by this pen.
    pub fn new(alloc: Global, pen: DoorPen) -> Teller {
        Teller {
            alloc,
            pen,
            tap: BindTap::new(alloc),
        }
    }

    /// The door serves a user from there, perhaps as its last one.
    pub fn connected(&mut self, peer: SocketAddr, is_last: bool) {
        self.tap = BindTap::new(self.alloc);
        self.pen.connected(peer);
        if is_last {
            self.pen.spent();
        }
    }

    /// A poll heard these octets.
    pub fn heard(&mut self, octets: &[u8]) {
        self.pen.heard(octets.len());
        if let Some(named) = self.tap.hear(octets) {
            self.pen.bound(named.user, named.instance);
        }
    }

    /// A poll failed.
    pub fn poll_failed(&self) {
        self.pen.failed();
    }

    /// So many octets were offered.
    pub fn offered(&self, count: usize, answer: Offer) {
        match answer {
            Offer::Whole => self.pen.sent(count),
            Offer::Stalled => self.pen.stalled(),
            Offer::Failed => self.pen.failed(),
        }
    }

    /// A serving ended like this.
    pub fn ended(&self, how: Option<String>) {
        self.pen.ended(how);
    }

    /// It failed, and serves no more.
    pub fn broke(&self) {
        self.pen.broke();
    }

    /// It is closed since the station is to stop.
    pub fn closed(&self) {
        self.pen.closed();
    }
}
