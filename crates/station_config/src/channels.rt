// Channels in order.
ghost use Rattle.std.specs.Prelude.{◌≡◌, [], ◌∷◌, ◌++◌, length, OnOk, OnErr};

use octet_core::Memory;
use sle_common::Gvcid;
use std::alloc::Global;
use std::marker::Model;

/// Channels in order, seen by contracts as their list. A clone is a copy.
#[derive(Clone, Debug, Drop)]
pub struct Channels {
    held: Vec<Gvcid>,
}

impl Model for Channels {
    ghost use Rattle.std.specs.Prelude.{List, vec_items};
    ghost use Rattle.sle_common.specs.declared.gvcid.Gvcid.{Gvcid};

    ghost Value = { List Gvcid };

    ghost view = { λ channels. vec_items channels.held };
}

impl Channels {
    /// No channels. It takes no memory.
    pub fn new(alloc: Global) -> Channels
        ensures { result ≡ [] }
    {
        Channels {
            held: Vec::new(alloc),
        }
    }

    /// The channels of a vector, which aren't copied.
    pub fn from_vec(channels: Vec<Gvcid>) -> Channels
        ensures { result ≡ channels.items }
    {
        Channels { held: channels }
    }

    /// Puts a channel behind the others.
    pub fn push(&mut self, channel: Gvcid) -> Result<(), Memory>
        ensures ok { OnOk result (self.new ≡ self.old ++ channel ∷ []) }
        ensures err { OnErr result (self.new ≡ self.old) }
    {
        self.held.push(channel)?;
        Ok(())
    }

    /// The channels.
    pub fn as_slice(&self) -> &[Gvcid]
        ensures { result.now ≡ self.now }
    {
        &self.held
    }

    /// How many there are.
    pub fn len(&self) -> usize
        ensures { result ≡ length self.now }
    {
        self.held.len()
    }
}
