// What a configuration says of the archive's capacity, beside what the program makes of it.

use octet_core::{Failed, Memory, Source};
use station_config::Site;
use std::alloc::Global;
use std::sync::Arc;
use std::sync::atomic::{AtomicBool, AtomicU64, Ordering};

/// The capacity that the configuration of a run says, once that was read. All that share it see it.
#[derive(Drop)]
pub struct Capacity {
    shared: Arc<Shared, Global>,
}

// What is shared: whether it is asked for, and the octets, or zero while they aren't known.
#[derive(Drop)]
struct Shared {
    is_asked: AtomicBool,
    octets: AtomicU64,
}

impl Capacity {
    /// Not asked for, and not known yet.
    pub fn new(alloc: Global) -> Result<Capacity, Memory> {
        let shared = Shared {
            is_asked: AtomicBool::new(false),
            octets: AtomicU64::new(0),
        };
        Ok(Capacity {
            shared: Arc::new(alloc, shared)?,
        })
    }

    /// The same, for another that sees it.
    pub fn share(&self) -> Result<Capacity, Memory> {
        Ok(Capacity {
            shared: Arc::try_clone(&self.shared)?,
        })
    }

    /// Asks for it: the input that comes from now on is a configuration.
    pub fn ask(&self) {
        self.shared.is_asked.store(true, Ordering::SeqCst);
    }

    // The octets, once they are known.
    pub(crate) fn octets(&self) -> Option<u64> {
        match self.shared.octets.load(Ordering::SeqCst) {
            0 => None,
            octets => Some(octets),
        }
    }

    // True if it was asked for.
    fn is_asked(&self) -> bool {
        self.shared.is_asked.load(Ordering::SeqCst)
    }

    // The configuration says so.
    fn set(&self, octets: u64) {
        self.shared.octets.store(octets, Ordering::SeqCst);
    }
}

/// An input whose octets are kept if they are a run's configuration, and are read once more at their
/// end, for the capacity that they say.
#[derive(Drop)]
pub struct KeptInput<S: Source + Drop> {
    source: S,
    kept: Kept,
}

// The octets of an input.
#[derive(Drop)]
struct Kept {
    alloc: Global,
    capacity: Option<Capacity>,
    octets: Vec<u8>,
}

impl<S: Source + Drop> KeptInput<S> {
    /// This input, whose capacity is seen so, if memory for that was there.
    pub fn new(alloc: Global, source: S, capacity: Option<Capacity>) -> KeptInput<S> {
        KeptInput {
            source,
            kept: Kept {
                alloc,
                capacity,
                octets: Vec::new(alloc),
            },
        }
    }
}

impl<S: Source + Drop> Source for KeptInput<S> {
    ghost left = { λ input. S.left input.source };

    ghost faults = { λ input. S.faults input.source };

    fn take(&mut self, into: &mut [u8]) -> Result<usize, Failed> {
        let answer = self.source.take(into);
        if let Ok(count) = answer {
            self.kept.hear(into.get(..count).unwrap_or(&[]));
        }
        answer
    }
}

impl Kept {
    // Keeps octets that came, if they are asked for; none are the end.
    fn hear(&mut self, octets: &[u8]) {
        let Some(capacity) = &self.capacity else {
            return;
        };
        if !capacity.is_asked() {
            return;
        }
        if octets.is_empty() {
            self.read();
        } else if self.octets.extend_from_slice(octets).is_err() {
            self.capacity = None;
        }
    }

    // Reads what was kept, and keeps it no longer.
    fn read(&mut self) {
        if let Some(capacity) = self.capacity.take()
            && let Ok(site) = Site::parse(self.alloc, &self.octets)
        {
            capacity.set(site.capacity);
        }
        self.octets = Vec::new(self.alloc);
    }
}
