// A sink in memory.
ghost use Rattle.std.specs.Prelude.{◌≡◌, IsErr, OnOk, OnErr};
ghost use Rattle.octet_core.specs.Fault.{FailsOnlyByFault};
ghost use Rattle.octet_core.specs.Written.{Gains, GainsFront};

use crate::{Failed, FailingCalls, Faults, Sink};
use std::alloc::Global;
use std::marker::Model;

/// A sink in memory, which fails at the calls of a list, each time when half of the octets are
/// written, and where memory is refused.
#[derive(Debug, Drop)]
pub struct MemorySink {
    written: Vec<u8>,
    calls: FailingCalls,
    faults: Faults,
    memory_refused: bool,
}

impl Model for MemorySink {
    ghost use Rattle.octet_core.specs.Doubles.{SinkState};

    ghost Value = { SinkState };

    ghost view = { λ sink. record {
      written = sink.written.items;
      calls = sink.calls;
      faults = sink.faults;
      memory_refused = sink.memory_refused;
    } };
}

impl MemorySink {
    ghost use Rattle.std.specs.Prelude.{[], false};
    ghost use Rattle.octet_core.specs.Doubles.{with_written, with_refusal};

    /// A sink that holds nothing yet, and fails at these calls, counted from 1.
    pub fn new(alloc: Global, failing_calls: Vec<u64>) -> MemorySink
        ensures { result ≡ record {
          written = [];
          calls = record { failing = failing_calls.items; made = 0 };
          faults = 0;
          memory_refused = false;
        } }
    {
        MemorySink {
            written: Vec::new(alloc),
            calls: FailingCalls::new(failing_calls),
            faults: Faults::new(),
            memory_refused: false,
        }
    }

    /// The octets written so far.
    pub fn written(&self) -> &[u8]
        ensures { result.now ≡ self.now.written }
    {
        self.written.as_slice()
    }

    /// How often it has failed.
    pub fn faults(&self) -> u64
        ensures { result ≡ self.now.faults }
    {
        self.faults.count()
    }

    /// Whether a call failed since memory was refused to it.
    pub fn memory_refused(&self) -> bool
        ensures { result ≡ self.now.memory_refused }
    {
        self.memory_refused
    }

    // Writes these octets, or none of them where memory is refused.
    fn write(&mut self, octets: &[u8]) -> Result<(), Failed>
        ensures ok { OnOk result (self.new ≡ with_written self.old octets.now) }
        ensures err { OnErr result (self.new ≡ with_refusal self.old) }
        ensures cause { FailsOnlyByFault self.old.faults self.new.faults result }
    {
        if self.written.extend_from_slice(octets).is_err() {
            self.memory_refused = true;
            return self.faults.fail();
        }
        Ok(())
    }
}

impl Sink for MemorySink {
    ghost use Rattle.std.specs.Prelude.{Some, IsTrue};
    ghost use Rattle.octet_core.specs.FailingCalls.{fails_next};
    ghost use Rattle.octet_core.specs.Doubles.{with_call, with_written, IsFailedPut};

    ghost written = { λ sink. Some sink.written };

    ghost faults = { λ sink. sink.faults };

    fn put_all(&mut self, octets: &[u8]) -> Result<(), Failed>
        ensures ok { OnOk result (Gains (Some self.old.written) (Some self.new.written)
            octets.now) }
        ensures err { OnErr result (GainsFront (Some self.old.written) (Some self.new.written)
            octets.now) }
        ensures cause { FailsOnlyByFault self.old.faults self.new.faults result }

        // A listed call fails, and a failed call is a listed one or was refused memory.
        ensures listed { IsTrue (fails_next self.old.calls) → IsErr result }
        ensures whole { OnOk result (self.new ≡ with_written (with_call self.old) octets.now) }
        ensures failed { OnErr result (IsFailedPut self.old octets.now self.new) }
    {
        if self.calls.count_call() {
            self.write(&octets[..octets.len() / 2])?;
            return self.faults.fail();
        }
        self.write(octets)
    }
}
