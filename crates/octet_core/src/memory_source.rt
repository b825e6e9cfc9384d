// A source in memory.
ghost use Rattle.std.specs.Prelude.{◌≡◌, length, IfOk, IsErr, OnErr};
ghost use Rattle.octet_core.specs.Fault.{FailsOnlyByFault};
ghost use Rattle.octet_core.specs.Taken.{Gives};

use crate::{Failed, FailingCalls, Faults, Octets, Source};
use std::marker::Model;

/// A source in memory, which fails at the calls of a list. Its calls take no memory.
#[derive(Debug, Drop)]
pub struct MemorySource {
    octets: Octets,
    taken: usize,
    calls: FailingCalls,
    faults: Faults,
}

impl Model for MemorySource {
    ghost use Rattle.std.specs.Prelude.{◌≤◌, drop, length};
    ghost use Rattle.octet_core.specs.Doubles.{SourceState};

    ghost Value = { SourceState };

    ghost view = { λ source. record {
      left = drop source.taken source.octets;
      calls = source.calls;
      faults = source.faults;
    } };

    ghost invariant = { λ source. source.taken ≤ length source.octets };
}

impl MemorySource {
    /// A source of these octets, which fails at these calls, counted from 1.
    pub fn new(octets: Octets, failing_calls: Vec<u64>) -> MemorySource
        ensures { result ≡ record {
          left = octets;
          calls = record { failing = failing_calls.items; made = 0 };
          faults = 0;
        } }
    {
        MemorySource {
            octets,
            taken: 0,
            calls: FailingCalls::new(failing_calls),
            faults: Faults::new(),
        }
    }

    /// The octets not yet taken.
    pub fn left(&self) -> &[u8]
        ensures { result.now ≡ self.now.left }
    {
        &self.octets.as_slice()[self.taken..]
    }

    /// How often it has failed.
    pub fn faults(&self) -> u64
        ensures { result ≡ self.now.faults }
    {
        self.faults.count()
    }
}

impl Source for MemorySource {
    ghost use Rattle.std.specs.Prelude.{Some, ◌↔◌, ◌++◌, IsTrue, min, take, drop};
    ghost use Rattle.octet_core.specs.FailingCalls.{fails_next};
    ghost use Rattle.octet_core.specs.Doubles.{after_taking, after_failing};

    ghost left = { λ source. Some source.left };

    ghost faults = { λ source. source.faults };

    /// Takes as many octets as there are and fit, unless the call is one of those that fail.
    fn take(&mut self, into: &mut [u8]) -> Result<usize, Failed>
        ensures ok { IfOk result (Gives (Some self.old.left) (Some self.new.left)
            into.old into.new) }
        ensures err { OnErr result (Some self.new.left ≡ Some self.old.left) }
        ensures cause { FailsOnlyByFault self.old.faults self.new.faults result }

        // Which call fails, how many octets the others take, what lies behind them, what is left.
        ensures fails { IsErr result ↔ IsTrue (fails_next self.old.calls) }
        ensures count { IfOk result (λ n. n ≡ min (length self.old.left) (length into.old)) }
        ensures filled { IfOk result (λ n. into.new ≡ take n self.old.left ++ drop n into.old) }
        ensures taken { IfOk result (λ n. self.new ≡ after_taking self.old n) }
        ensures failed { OnErr result (self.new ≡ after_failing self.old) }
    {
        if self.calls.count_call() {
            return self.faults.fail();
        }
        let left = &self.octets.as_slice()[self.taken..];
        let count = left.len().min(into.len());
        into[..count].copy_from_slice(&left[..count]);
        self.taken += count;
        Ok(count)
    }
}
