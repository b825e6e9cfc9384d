// Peers in order.
ghost use Rattle.std.specs.Prelude.{◌≡◌, [], ◌∷◌, ◌++◌, length, OnOk, OnErr};

use crate::peer::Peer;
use octet_core::Memory;
use std::alloc::Global;
use std::marker::Model;

/// Peers in the order of their lines, seen by contracts as their list. A peer is named by its
/// place, from 0.
#[derive(Drop)]
pub struct Peers {
    held: Vec<Peer>,
}

impl Model for Peers {
    ghost use Rattle.std.specs.Prelude.{List, vec_items};
    ghost use Rattle.station_config.specs.declared.peer.Peer.{Peer};

    ghost Value = { List Peer };

    ghost view = { λ peers. vec_items peers.held };
}

impl Peers {
    /// None. It takes no memory.
    pub fn new(alloc: Global) -> Peers
        ensures { result ≡ [] }
    {
        Peers {
            held: Vec::new(alloc),
        }
    }

    /// Puts a peer behind the others.
    pub fn push(&mut self, peer: Peer) -> Result<(), Memory>
        ensures ok { OnOk result (self.new ≡ self.old ++ peer ∷ []) }
        ensures err { OnErr result (self.new ≡ self.old) }
    {
        self.held.push(peer)?;
        Ok(())
    }

    /// All of them.
    pub fn as_slice(&self) -> &[Peer]
        ensures { result.now ≡ self.now }
    {
        &self.held
    }

    /// How many there are.
    pub fn len(&self) -> usize
        ensures { result ≡ length self.now }
    {
        self.held.len()
    }
}
