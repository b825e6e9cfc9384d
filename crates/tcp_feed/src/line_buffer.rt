// The octets of a source's lines, as they come.

use memchr::memchr;
use std::alloc::{AllocError, Global};
use std::io;
use std::io::Read;
use std::marker::Model;
use std::net::TcpStream;

/// Octets that came and weren't taken yet.
#[derive(Drop)]
pub(crate) struct LineBuffer {
    // They are here, from `taken` to `end`.
    octets: Vec<u8>,
    taken: usize,
    end: usize,
}

impl Model for LineBuffer {
    ghost use Rattle.std.specs.Prelude.{ℕ, ◌≤◌, length};

    ghost Value = { ℕ };

    ghost view = { λ buffer. buffer.end };

    ghost invariant = { λ buffer. (buffer.taken ≤ buffer.end)
        × (buffer.end ≤ length buffer.octets.items) };
}

impl LineBuffer {
    /// Holds nothing, and has room for so many octets.
    pub fn new(alloc: Global, room: usize) -> Result<LineBuffer, AllocError> {
        let mut octets = Vec::new(alloc);
        octets.resize(room, 0)?;
        Ok(LineBuffer {
            octets,
            taken: 0,
            end: 0,
        })
    }

    /// The octets that are held.
    pub fn held(&self) -> &[u8] {
        &self.octets[self.taken..self.end]
    }

    /// The next line without its end, if its end has come.
    pub fn line(&self) -> Option<&[u8]> {
        let held = self.held();
        match memchr(b'\n', held) {
            Some(size) => held.get(..size),
            None => None,
        }
    }

    /// Takes so many octets and the line end after them.
    pub fn take_line(&mut self, size: usize) {
        let left = self.end - self.taken;
        self.taken += size.saturating_add(1).min(left);
    }

    /// Reads what has come into the room after the octets that are held, and answers how many octets
    /// there were. None is an end, or that there is no room.
    pub fn read(&mut self, stream: &mut TcpStream) -> io::Result<usize> {
        let count = stream.read(&mut self.octets[self.end..])?;
        self.end += count;
        Ok(count)
    }

    /// Moves what is held to the beginning, and answers whether there is no room then.
    pub fn is_full(&mut self) -> bool {
        let (taken, end) = (self.taken, self.end);
        self.octets.copy_within(taken..end, 0);
        self.end = end - taken;
        self.taken = 0;
        self.end == self.octets.len()
    }

    /// Takes all, and answers whether there was anything.
    pub fn clear(&mut self) -> bool {
        let has_held = self.taken < self.end;
        self.taken = 0;
        self.end = 0;
        has_held
    }
}
