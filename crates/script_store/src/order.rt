// What is to happen to the disk at one of its next calls.
ghost use Rattle.std.specs.Prelude.{◌≡◌, Some, [], ◌∷◌};
ghost use Rattle.std.specs.Prelude.{IfOk};
ghost use Rattle.script_store.specs.Orders.{pick_of, is_hit, behind_store, order_behind};
ghost use Rattle.script_store.specs.Storing.{orders_of, no_orders, stop_at};

use disk_model::{Orders, Pick, Stop};
use drill_text::Pick as PickWord;
use octet_core::{FailingCalls, Memory};
use std::alloc::Global;

/// How many counted calls of the disk a store makes.
const STORE_CALLS: u64 = 4;

/// What happens to the disk at a call.
#[derive(Clone, Copy, Debug, PartialEq, Eq)]
pub enum Strike {
    /// The power fails, and of what isn't synced this is left.
    Stop(Pick),
    /// The call fails.
    Fail,
}

/// An order for one of the disk's next calls.
#[derive(Clone, Copy, Debug, PartialEq, Eq)]
pub struct Order {
    /// At which counted call from now on, from 1.
    pub calls: u64,
    /// What happens there.
    pub strike: Strike,
}

impl Order {
    /// Whether the next store makes its call.
    pub fn is_hit(self) -> bool
        ensures { result ≡ is_hit self }
    {
        self.calls <= STORE_CALLS
    }

    /// The order behind a store, or none where the store makes its call.
    pub fn behind_store(self) -> Option<Order>
        ensures { result ≡ behind_store self }
    {
        if self.is_hit() {
            return None;
        }
        let calls = self.calls - STORE_CALLS;
        Some(Order { calls, ..self })
    }

    /// As a disk in memory takes it.
    pub fn orders(self, alloc: Global) -> Result<Orders, Memory>
        ensures { IfOk result (λ orders. orders ≡ orders_of self) }
    {
        match self.strike {
            Strike::Stop(pick) => Ok(stop_at(alloc, self.calls, pick)),
            Strike::Fail => {
                let failing = FailingCalls::new(vec![in alloc; self.calls]?);
                Ok(Orders {
                    failing,
                    stop: None,
                })
            }
        }
    }
}

// The order that stands behind a store.
pub fn order_behind(order: Option<Order>) -> Option<Order>
    ensures { result ≡ order_behind order }
{
    match order {
        Some(order) => order.behind_store(),
        None => None,
    }
}

// The power fails at this call.
fn stop_at(alloc: Global, calls: u64, pick: Pick) -> Orders
    ensures { result ≡ stop_at calls pick }
{
    Orders {
        failing: FailingCalls::new(Vec::new(alloc)),
        stop: Some(Stop { calls, pick }),
    }
}

// The power fails between two calls.
pub fn stop_at_once(alloc: Global, pick: Pick) -> Orders
    ensures { result ≡ stop_at 0 pick }
{
    stop_at(alloc, 0, pick)
}

// Nothing is to happen.
pub fn no_orders(alloc: Global) -> Orders
    ensures { result ≡ no_orders }
{
    Orders {
        failing: FailingCalls::new(Vec::new(alloc)),
        stop: None,
    }
}

/// The pick of a line, as a disk in memory takes it.
pub fn pick_of(pick: PickWord) -> Pick
    ensures { result ≡ pick_of pick }
{
    match pick {
        PickWord::Old => Pick::Old,
        PickWord::New => Pick::New,
        PickWord::Torn => Pick::Torn,
    }
}
