// Whether a station is to stop.

use crate::{StopPort, report};
use octet_core::Memory;
use std::alloc::Global;
use std::io::Write;
use std::sync::atomic::{AtomicBool, Ordering};
use std::sync::{Arc, Mutex};

/// Whether a stop was asked for. All that share it see it from then on.
#[derive(Drop)]
pub struct Stop {
    shared: Arc<Shared, Global>,
}

// What is shared: whether it was asked for, and the port at which it may be.
#[derive(Drop)]
struct Shared {
    is_asked: AtomicBool,
    port: Mutex<Option<StopPort>>,
}

impl Stop {
    /// No stop was asked for yet.
    pub fn new(alloc: Global) -> Result<Stop, Memory> {
        Stop::with_port(alloc, None)
    }

    /// No stop was asked for yet, and one may be at this port.
    pub fn at(alloc: Global, port: StopPort) -> Result<Stop, Memory> {
        Stop::with_port(alloc, Some(port))
    }

    // No stop was asked for yet.
    fn with_port(alloc: Global, port: Option<StopPort>) -> Result<Stop, Memory> {
        let shared = Shared {
            is_asked: AtomicBool::new(false),
            port: Mutex::new(port),
        };
        Ok(Stop {
            shared: Arc::new(alloc, shared)?,
        })
    }

    /// The same stop, for another that is to see it.
    pub fn share(&self) -> Result<Stop, Memory> {
        Ok(Stop {
            shared: Arc::try_clone(&self.shared)?,
        })
    }

    /// Asks for the stop.
    pub fn ask(&self) {
        self.shared.is_asked.store(true, Ordering::SeqCst);
    }

    /// Whether it was asked for.
    pub fn is_asked(&self) -> bool {
        self.shared.is_asked.load(Ordering::SeqCst)
    }

    /// Looks at its port, and where the stop is asked for there, asks for it and reports from where.
    /// It waits for nothing: while another looks, it doesn't.
    pub fn look<W: Write>(&self, alloc: Global, reports: &mut W) {
        let Some(mut port) = self.shared.port.try_lock() else {
            return;
        };
        let Some(peer) = port.as_mut().and_then(StopPort::look) else {
            return;
        };
        self.ask();
        report(reports, format!(in alloc; "stop: asked for by {peer}\n"));
    }
}
