// The place at which a stop is asked for.

use crate::{Listening, Peer, Place, is_early};
use std::fs::Files;
use std::io;
use std::io::{ErrorKind, Read, Write};
use std::net::{Net, TcpListener, TcpStream};

// What a connection sends to ask for a stop.
const ASKED: &[u8] = b"stop\n";

// What it hears then.
const HEARD: &[u8] = b"stopping\n";

/// The place at which a stop is asked for, by a connection that sends the line `stop`. It hears the
/// line `stopping`, and is closed when this place is: by that it sees that all has ended.
///
/// A connection that sends something else is closed, and so is one that has asked for nothing yet
/// when the next one comes.
#[derive(Drop)]
pub struct StopPort {
    listening: Listening,
    asking: Option<Asking>,
    is_asked: bool,
}

// A connection, and what it has to send yet.
#[derive(Drop)]
struct Asking {
    stream: TcpStream,
    peer: Peer,
    left: &'static [u8],
}

impl StopPort {
    /// Listens at this place from now on.
    pub fn open<R: Net<Stream = TcpStream, Listener = TcpListener> + Files>(
        rt: &R,
        place: Place,
    ) -> io::Result<StopPort> {
        Ok(StopPort {
            listening: Listening::open(rt, place)?,
            asking: None,
            is_asked: false,
        })
    }

    /// Where it listens: with the system's port where it was told port 0.
    pub fn place(&self) -> &Place {
        self.listening.place()
    }

    /// Looks, without waiting, and answers from where a stop was asked for, once.
    pub fn look(&mut self) -> Option<Peer> {
        if self.is_asked {
            return None;
        }
        self.accept();
        let asking = self.asking.as_mut()?;
        let peer = asking.peer;
        match asking.hear() {
            Ok(true) => {
                self.is_asked = true;
                Some(peer)
            }
            Ok(false) => None,
            Err(_) => {
                self.asking = None;
                None
            }
        }
    }

    // Takes the next connection, if one has come.
    fn accept(&mut self) {
        if let Ok((stream, peer)) = self.listening.accept() {
            self.asking = Some(Asking {
                stream,
                peer,
                left: ASKED,
            });
        }
    }
}

impl Asking {
    // Hears what has come, and answers whether it asks for a stop.
    fn hear(&mut self) -> io::Result<bool> {
        let mut piece = [0; ASKED.len()];
        let space = piece.len().min(self.left.len());
        let count = match self.stream.read(&mut piece[..space]) {
            Ok(0) => return Err(ErrorKind::UnexpectedEof.into()),
            Ok(count) => count,
            Err(error) if is_early(&error) => return Ok(false),
            Err(error) => return Err(error),
        };
        match self.left.strip_prefix(&piece[..count]) {
            Some(left) => self.left = left,
            None => return Err(ErrorKind::InvalidData.into()),
        }
        if !self.left.is_empty() {
            return Ok(false);
        }
        let _ = self.stream.write_all(HEARD);
        Ok(true)
    }
}
