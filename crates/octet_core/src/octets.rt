// Octets that are kept and handed on.
ghost use Rattle.std.specs.Prelude.{◌≡◌, ◌==◌, [], ◌∷◌, ◌++◌, length, IfOk, OnOk, OnErr};
ghost use Rattle.std.specs.Prelude.{if◌then◌else◌};

use crate::Memory;
use std::alloc::{AllocError, Global};
use std::marker::Model;
use std::sync::Arc;

/// Octets that are kept, seen by contracts as their list.
///
/// They are handed on without a copy: a clone is a second holder of the same octets, costs constant
/// time and no memory, and may go to another thread. A holder that appends while there is another
/// one takes a copy of its own first.
#[derive(Debug, Drop)]
pub struct Octets {
    alloc: Global,
    shared: Option<Arc<Vec<u8>>>,
}

impl Model for Octets {
    ghost use Rattle.std.specs.Prelude.{List, ℕ, [], vec_items};
    ghost use Rattle.std.specs.Arc.{arc_value};
    ghost use Rattle.std.specs.Option.{option_map_or};

    ghost Value = { List ℕ };

    ghost view = { λ octets.
        option_map_or (λ shared. vec_items (arc_value shared)) octets.shared [] };
}

impl Octets {
    /// No octets. It takes no memory.
    pub fn new(alloc: Global) -> Octets
        ensures { result ≡ [] }
    {
        Octets {
            alloc,
            shared: None,
        }
    }

    /// A copy of these octets.
    pub fn copy_of(alloc: Global, octets: &[u8]) -> Result<Octets, Memory>
        ensures { IfOk result (λ copy. copy ≡ octets.now) }
    {
        Octets::from_vec(alloc, Vec::from_slice(alloc, octets)?)
    }

    /// The octets of a vector, which aren't copied.
    pub fn from_vec(alloc: Global, octets: Vec<u8>) -> Result<Octets, Memory>
        ensures { IfOk result (λ shared. shared ≡ octets.items) }
    {
        let shared = Some(Arc::new(alloc, octets)?);
        Ok(Octets { alloc, shared })
    }

    /// The octets, to be read.
    pub fn as_slice(&self) -> &[u8]
        ensures { result.now ≡ self.now }
    {
        match &self.shared {
            Some(shared) => shared.as_slice(),
            None => &[],
        }
    }

    /// How many there are.
    pub fn len(&self) -> usize
        ensures { result ≡ length self.now }
    {
        self.as_slice().len()
    }

    /// Whether there are none.
    pub fn is_empty(&self) -> bool
        ensures { result ≡ (length self.now == 0) }
    {
        self.as_slice().is_empty()
    }

    /// Puts these octets behind those that are there.
    pub fn append(&mut self, octets: &[u8]) -> Result<(), Memory>
        ensures ok { OnOk result (self.new ≡ self.old ++ octets.now) }
        ensures err { OnErr result (self.new ≡ self.old) }
    {
        if let Some(shared) = &mut self.shared {
            if let Some(own) = Arc::get_mut(shared) {
                own.extend_from_slice(octets)?;
                return Ok(());
            }
        }
        let mut own = Vec::from_slice(self.alloc, self.as_slice())?;
        own.extend_from_slice(octets)?;
        self.shared = Some(Arc::new(self.alloc, own)?);
        Ok(())
    }

    /// Removes all octets. Their memory is kept where no one else holds them.
    pub fn clear(&mut self)
        ensures { self.new ≡ [] }
    {
        if let Some(shared) = &mut self.shared {
            if let Some(own) = Arc::get_mut(shared) {
                own.clear();
                return;
            }
        }
        self.shared = None;
    }
}

impl Clone for Octets {
    ghost is_clone = { λ octets copy. copy ≡ octets };

    /// A second holder of the same octets, in constant time and with no memory. It fails where the
    /// octets have 2^63 holders.
    fn clone(&self) -> Result<Octets, AllocError> {
        let shared = match &self.shared {
            Some(shared) => Some(Arc::try_clone(shared)?),
            None => None,
        };
        Ok(Octets {
            alloc: self.alloc,
            shared,
        })
    }
}

impl PartialEq for Octets {
    ghost use Rattle.std.specs.Prelude.{nat_eq};
    ghost use Rattle.std.specs.Cmp.Lexicographic.{pointwise, nat_list_eq_equiv};
    ghost use Rattle.std.specs.Cmp.{partial_equiv_from_equiv};

    ghost eq = { pointwise nat_eq };

    ghost laws = { partial_equiv_from_equiv nat_list_eq_equiv };

    fn eq(&self, other: &Octets) -> bool {
        self.as_slice() == other.as_slice()
    }
}

impl Eq for Octets {
    ghost use Rattle.std.specs.Cmp.Lexicographic.{nat_list_eq_equiv};

    ghost laws = { nat_list_eq_equiv };
}
