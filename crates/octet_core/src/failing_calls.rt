// Which calls of a double fail.
ghost use Rattle.std.specs.Prelude.{◌≡◌};
ghost use Rattle.octet_core.specs.FailingCalls.{Calls, fails_next, after_call};

use std::marker::Model;

/// The calls of a double that fail, counted from 1, and how many were made: one list and one count
/// for every object in memory that stands for one of the outside. The count stands still at the
/// last `u64`.
#[derive(Debug, Drop)]
pub struct FailingCalls {
    failing: Vec<u64>,
    made: u64,
}

impl Model for FailingCalls {
    ghost Value = { Calls };

    ghost view = { λ calls. record { failing = calls.failing.items; made = calls.made } };
}

impl FailingCalls {
    /// These calls fail, and none was made yet.
    pub fn new(calls: Vec<u64>) -> FailingCalls
        ensures { result ≡ record { failing = calls.items; made = 0 } }
    {
        FailingCalls {
            failing: calls,
            made: 0,
        }
    }

    /// How many calls were made.
    pub fn made(&self) -> u64
        ensures { result ≡ self.now.made }
    {
        self.made
    }

    /// Whether the next call fails.
    pub fn fails_next(&self) -> bool
        ensures { result ≡ fails_next self.now }
    {
        self.failing.contains(&self.made.saturating_add(1))
    }

    /// Counts a call, and answers whether it fails.
    pub fn count_call(&mut self) -> bool
        ensures fails { result ≡ fails_next self.old }
        ensures counted { self.new ≡ after_call self.old }
    {
        let fails = self.fails_next();
        self.made = self.made.saturating_add(1);
        fails
    }
}
