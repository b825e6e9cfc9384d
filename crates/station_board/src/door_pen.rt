// What a door and its links write on a board.

use crate::board::Board;
use octet_core::Memory;
use station_snapshot::DoorState;
use std::net::SocketAddr;

/// The place of one door on a board, for the door and for the link that it gave. Both are of one
/// thread.
#[derive(Drop)]
pub struct DoorPen {
    board: Board,
    door: usize,
}

impl DoorPen {
    /// The place of the door of this number, from 0. One that isn't on the board writes nothing.
    pub fn new(board: Board, door: usize) -> DoorPen {
        DoorPen { board, door }
    }

    /// The same place, for another.
    pub fn share(&self) -> Result<DoorPen, Memory> {
        Ok(DoorPen {
            board: self.board.share()?,
            door: self.door,
        })
    }

    /// A link was given to this peer.
    pub fn connected(&self, peer: SocketAddr) {
        if let Some(door) = self.board.door(self.door) {
            door.serves(peer, self.board.at());
        }
    }

    /// The peer's BIND named this user and this service instance.
    pub fn bound(&self, user: String, instance: String) {
        if let Some(door) = self.board.door(self.door) {
            door.bound(user, instance);
        }
    }

    /// So many octets came.
    pub fn heard(&self, count: usize) {
        if let Some(door) = self.board.door(self.door) {
            door.heard(count as u64, self.board.at());
        }
    }

    /// So many octets were taken.
    pub fn sent(&self, count: usize) {
        if let Some(door) = self.board.door(self.door) {
            door.sent(count as u64);
        }
    }

    /// The worker that serves the door began a turn.
    pub fn turned(&self) {
        if let Some(door) = self.board.door(self.door) {
            door.turned(self.board.at());
        }
    }

    /// An offer stalled.
    pub fn stalled(&self) {
        if let Some(door) = self.board.door(self.door) {
            door.stalled();
        }
    }

    /// A call of the link failed.
    pub fn failed(&self) {
        if let Some(door) = self.board.door(self.door) {
            door.failed();
        }
    }

    /// The serving ended so, in words. The door waits, unless it has given its last link.
    pub fn ended(&self, how: Option<String>) {
        if let Some(door) = self.board.door(self.door) {
            door.ended(how, self.board.at());
        }
    }

    /// The door has given its last link, which may still be served.
    pub fn spent(&self) {
        if let Some(door) = self.board.door(self.door) {
            door.spent();
        }
    }

    /// A call of the door failed, and it gives no further link.
    pub fn broke(&self) {
        if let Some(door) = self.board.door(self.door) {
            door.failed();
            door.set_state(DoorState::Failed);
        }
    }

    /// The door gives no further link since a stop was asked for.
    pub fn closed(&self) {
        if let Some(door) = self.board.door(self.door) {
            door.set_state(DoorState::Closed);
        }
    }
}
