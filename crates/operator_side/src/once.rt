// What is done once, by whoever comes first.

use octet_core::Memory;
use std::alloc::Global;
use std::sync::Arc;
use std::sync::atomic::{AtomicBool, Ordering};

/// Lets the first one that comes do something, of all that share it.
#[derive(Drop)]
pub struct Once {
    is_done: Arc<AtomicBool, Global>,
}

impl Once {
    /// Nobody came yet.
    pub fn new(alloc: Global) -> Result<Once, Memory> {
        Ok(Once {
            is_done: Arc::new(alloc, AtomicBool::new(false))?,
        })
    }

    /// The same, for another that may come first.
    pub fn share(&self) -> Result<Once, Memory> {
        Ok(Once {
            is_done: Arc::try_clone(&self.is_done)?,
        })
    }

    /// True if nobody came before.
    pub fn come(&self) -> bool {
        !self.is_done.swap(true, Ordering::SeqCst)
    }
}
