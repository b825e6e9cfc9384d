// The place at which a status page is served.

use crate::caller::Caller;
use http_server::{Config, Connection};
use http1::Limits;
use octet_core::Memory;
use operator_side::{Listening, Place};
use station_board::Board;
use status_page::StatusPage;
use std::alloc::Global;
use std::fs::Files;
use std::hash::RandomState;
use std::io;
use std::net::{Net, Shutdown, TcpListener, TcpStream};
use std::os::fd::RawFd;

// How many connections are served at once, and for how many milliseconds each.
const CALLERS: usize = 4;

const CALLER_MILLIS: u64 = 2_000;

// What a connection may ask: a head of so many octets, and no body.
const CONFIG: Config = Config {
    limits: Limits {
        max_head_len: 4_096,
        max_extensions_len: 64,
        max_trailers_len: 64,
    },
    max_body_len: 0,
    max_pending: 65_536,
    read_size: 4_096,
};

/// A place at which a status page is served.
#[derive(Drop)]
pub struct StatusPort {
    alloc: Global,
    listening: Listening,
    keys: RandomState,
    callers: Vec<Caller>,
}

impl StatusPort {
    /// Listens at this place from now on. The keys are those of its tables of fields.
    pub fn open<R: Net<Stream = TcpStream, Listener = TcpListener> + Files>(
        rt: &R,
        alloc: Global,
        place: Place,
        keys: RandomState,
    ) -> io::Result<StatusPort> {
        Ok(StatusPort {
            alloc,
            listening: Listening::open(rt, place)?,
            keys,
            callers: Vec::with_capacity(alloc, CALLERS)?,
        })
    }

    /// Where it listens: with the system's port where it was told port 0.
    pub fn place(&self) -> &Place {
        self.listening.place()
    }

    /// The descriptor of what listens.
    pub fn descriptor(&self) -> RawFd {
        self.listening.descriptor()
    }

    /// True if no connection is open.
    pub fn is_idle(&self) -> bool {
        self.callers.is_empty()
    }

    /// Serves what has come, by what the board shows now, and waits for nothing. Where memory is
    /// refused, the connections are closed.
    pub fn look(&mut self, board: &Board) {
        let now = board.at();
        self.accept(now);
        let mut heard = false;
        for caller in &mut self.callers {
            if caller.hear() {
                heard = true;
            }
        }
        if heard && self.answer(board).is_err() {
            self.callers.clear();
        }
        for caller in &mut self.callers {
            caller.tell();
        }
        self.close(now);
    }

    // Takes the connections that have come, as far as there is room.
    fn accept(&mut self, now: u64) {
        for _ in 0..CALLERS {
            if self.callers.len() >= CALLERS {
                return;
            }
            let Ok((stream, _)) = self.listening.accept() else {
                return;
            };
            let caller = Caller {
                stream,
                connection: Connection::new(self.alloc, self.keys, CONFIG),
                until: now.saturating_add(CALLER_MILLIS),
                is_over: false,
            };
            let _ = self.callers.push(caller);
        }
    }

    // Answers what was heard.
    fn answer(&mut self, board: &Board) -> Result<(), Memory> {
        let mut page = StatusPage {
            alloc: self.alloc,
            snapshot: board.snapshot(self.alloc)?,
        };
        for caller in &mut self.callers {
            caller.answer(&mut page);
        }
        Ok(())
    }

    // Closes the connections that are over, and those whose time is.
    fn close(&mut self, now: u64) {
        let mut place = self.callers.len();
        while place > 0 {
            place -= 1;
            let caller = &self.callers[place];
            if caller.is_over || now > caller.until {
                let caller = self.callers.swap_remove(place);
                let _ = caller.stream.shutdown(Shutdown::Write);
            }
        }
    }
}
