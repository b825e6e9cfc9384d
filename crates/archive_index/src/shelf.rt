// A shelf: a list of which each reading is counted.
ghost use Rattle.std.specs.Prelude.{◌≡◌, ◌+◌, ◌<◌, ◌≤◌, [], ◌∷◌, ◌++◌, length, take, slice_get};
ghost use Rattle.std.specs.Prelude.{Some, OnOk, OnErr, IfErr, IfOk};

use crate::steps::Steps;
use octet_core::Memory;
use std::alloc::Global;
use std::marker::Model;
use std::sync::ledger::Ledger;

/// A list that grows at its end and is cut there. Each reading of an entry is one step.
#[derive(Debug, Drop)]
pub struct Shelf<T> {
    held: Vec<T>,
}

impl<T> Model for Shelf<T> {
    ghost use Rattle.std.specs.Prelude.{List, vec_items};

    ghost Value = { List T };

    ghost view = { λ s. vec_items s.held };
}

impl<T> Shelf<T> {
    /// An empty shelf. It takes no memory yet.
    pub fn new(alloc: Global) -> Result<Shelf<T>, Memory>
        ensures { IfOk result (λ shelf. shelf ≡ []) }
    {
        Ok(Shelf {
            held: Vec::new(alloc),
        })
    }

    /// A shelf of these values.
    pub fn of(held: Vec<T>) -> Shelf<T>
        ensures { result ≡ held.items }
    {
        Shelf { held }
    }

    /// Puts a value after the others. Out of memory leaves the shelf as it was and returns the value.
    pub fn push(&mut self, value: T) -> Result<(), T>
        ensures ok { OnOk result (self.new ≡ self.old ++ value ∷ []) }
        ensures back { IfErr result (λ v. v ≡ value) }
        ensures err { OnErr result (self.new ≡ self.old) }
    {
        match self.held.push(value) {
            Ok(()) => Ok(()),
            Err(failed) => Err(failed.value),
        }
    }

    /// Goes back to the first `count` values.
    pub fn cut(&mut self, count: u64)
    where
        T: Drop,
        requires { count ≤ length self.old }
        ensures { self.new ≡ take count self.old }
    {
        self.held.truncate(count as usize);
    }

    /// How many there are.
    pub fn length(&self) -> u64
        ensures { result ≡ length self.now }
    {
        self.held.len() as u64
    }

    /// The value at a place: one step.
    pub fn read<L: Ledger>(&self, place: u64, steps: &mut Steps<L>) -> &T
        requires { place < length self.now }
        ensures value { slice_get self.now place ≡ Some result.now }
        ensures step { steps.new ≡ steps.old + 1 }
    {
        steps.tick();
        &self.held[place as usize]
    }
}
