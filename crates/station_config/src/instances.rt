// Instances in order.
ghost use Rattle.std.specs.Prelude.{◌≡◌, [], ◌∷◌, ◌++◌, length, OnOk, OnErr};

use crate::instance::Instance;
use octet_core::Memory;
use std::alloc::Global;
use std::marker::Model;

/// Instances in the order of their lines, seen by contracts as their list. An instance is named by
/// its place, from 0.
#[derive(Debug, Drop)]
pub struct Instances {
    held: Vec<Instance>,
}

impl Model for Instances {
    ghost use Rattle.std.specs.Prelude.{List, vec_items};
    ghost use Rattle.station_config.specs.declared.instance.Instance.{Instance};

    ghost Value = { List Instance };

    ghost view = { λ instances. vec_items instances.held };
}

impl Instances {
    /// None. It takes no memory.
    pub fn new(alloc: Global) -> Instances
        ensures { result ≡ [] }
    {
        Instances {
            held: Vec::new(alloc),
        }
    }

    /// Puts an instance behind the others.
    pub fn push(&mut self, instance: Instance) -> Result<(), Memory>
        ensures ok { OnOk result (self.new ≡ self.old ++ instance ∷ []) }
        ensures err { OnErr result (self.new ≡ self.old) }
    {
        self.held.push(instance)?;
        Ok(())
    }

    /// All of them.
    pub fn as_slice(&self) -> &[Instance]
        ensures { result.now ≡ self.now }
    {
        &self.held
    }

    /// How many there are.
    pub fn len(&self) -> usize
        ensures { result ≡ length self.now }
    {
        self.held.len()
    }
}
