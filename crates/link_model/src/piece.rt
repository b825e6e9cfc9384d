// A piece of octets that came.
ghost use Rattle.std.specs.Prelude.{◌≡◌, ◌==◌, ◌++◌, length, min, take, drop};

use octet_core::Octets;
use std::marker::Model;

// What is left of octets that came at once.
#[derive(Debug, Drop)]
pub(crate) struct Piece {
    octets: Octets,
    taken: usize,
}

impl Model for Piece {
    ghost use Rattle.std.specs.Prelude.{List, ℕ, ◌≤◌, drop, length};

    ghost Value = { List ℕ };

    ghost view = { λ piece. drop piece.taken piece.octets };

    ghost invariant = { λ piece. piece.taken ≤ length piece.octets };
}

impl Piece {
    pub(crate) fn new(octets: Octets) -> Piece
        ensures { result ≡ octets }
    {
        Piece { octets, taken: 0 }
    }

    pub(crate) fn is_empty(&self) -> bool
        ensures { result ≡ (length self.now == 0) }
    {
        self.taken == self.octets.len()
    }

    // Moves as many octets as fit to the front of `into`, and answers how many.
    pub(crate) fn give(&mut self, into: &mut [u8]) -> usize
        ensures count { result ≡ min (length self.old) (length into.old) }
        ensures filled { into.new ≡ take result self.old ++ drop result into.old }
        ensures left { self.new ≡ drop result self.old }
    {
        let left = &self.octets.as_slice()[self.taken..];
        let count = left.len().min(into.len());
        into[..count].copy_from_slice(&left[..count]);
        self.taken += count;
        count
    }
}
