// A list of items.
ghost use Rattle.std.specs.Prelude.{◌≡◌, ◌==◌, [], ◌∷◌, ◌++◌, length, OnOk, OnErr};
ghost use Rattle.frame_select.specs.Item.{item_of, items_of};

use crate::item::Item;
use octet_core::Memory;
use std::alloc::{AllocError, Global};
use std::marker::Model;

/// Items in order, seen by contracts as the list of them, each with its continuity.
#[derive(Debug, Drop)]
pub struct Items {
    held: Vec<Item>,
}

impl Model for Items {
    ghost use Rattle.std.specs.Prelude.{List, vec_items};
    ghost use Rattle.archive_terms.specs.Placed.{ToldItem};
    ghost use Rattle.frame_select.specs.Item.{items_of};

    ghost Value = { List ToldItem };

    ghost view = { λ items. items_of (vec_items items.held) };
}

impl Items {
    /// No items. It takes no memory.
    pub fn new(alloc: Global) -> Items
        ensures { result ≡ [] }
    {
        Items {
            held: Vec::new(alloc),
        }
    }

    /// Puts an item behind the others.
    pub fn push(&mut self, item: Item) -> Result<(), Memory>
        ensures ok { OnOk result (self.new ≡ self.old ++ item_of item ∷ []) }
        ensures err { OnErr result (self.new ≡ self.old) }
    {
        self.held.push(item)?;
        Ok(())
    }

    /// The items.
    pub fn as_slice(&self) -> &[Item]
        ensures { items_of result.now ≡ self.now }
    {
        &self.held
    }

    /// How many there are.
    pub fn len(&self) -> usize
        ensures { result ≡ length self.now }
    {
        self.held.len()
    }

    /// Whether there are none.
    pub fn is_empty(&self) -> bool
        ensures { result ≡ (length self.now == 0) }
    {
        self.held.is_empty()
    }

    /// The items, to be handed on one by one.
    pub fn into_vec(self) -> Vec<Item>
        ensures { items_of result.items ≡ self }
    {
        self.held
    }
}
