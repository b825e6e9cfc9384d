// TCP ports in order.
ghost use Rattle.std.specs.Prelude.{◌≡◌, [], ◌∷◌, ◌++◌, OnOk, OnErr};

use octet_core::Memory;
use std::alloc::Global;
use std::marker::Model;

/// TCP ports in order, seen by contracts as their list.
#[derive(Debug, Drop)]
pub struct Ports {
    held: Vec<u16>,
}

impl Model for Ports {
    ghost use Rattle.std.specs.Prelude.{List, ℕ, vec_items};

    ghost Value = { List ℕ };

    ghost view = { λ ports. vec_items ports.held };
}

impl Ports {
    /// No ports. It takes no memory.
    pub fn new(alloc: Global) -> Ports
        ensures { result ≡ [] }
    {
        Ports {
            held: Vec::new(alloc),
        }
    }

    /// Puts a port behind the others.
    pub fn push(&mut self, port: u16) -> Result<(), Memory>
        ensures ok { OnOk result (self.new ≡ self.old ++ port ∷ []) }
        ensures err { OnErr result (self.new ≡ self.old) }
    {
        self.held.push(port)?;
        Ok(())
    }

    /// The ports.
    pub fn as_slice(&self) -> &[u16]
        ensures { result.now ≡ self.now }
    {
        &self.held
    }
}
