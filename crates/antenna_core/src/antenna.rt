// What sends CLTUs, and what stands for it in memory.
ghost use Rattle.std.specs.Prelude.{◌≡◌, ◌↔◌, ◌∷◌, [], ℕ, List, Option, IsTrue, IsErr};
ghost use Rattle.std.specs.Prelude.{true, option_copied};
ghost use Rattle.octet_core.specs.Fault.{FailsOnlyByFault};
ghost use Rattle.octet_core.specs.Told.{Tells};
ghost use Rattle.antenna_core.specs.Sent.{sent_by};
ghost use Rattle.antenna_core.specs.AntennaSim.{unsent, fails_now, after_send};

use octet_core::{Failed, FailingCalls, Faults, Octets};
use std::alloc::Global;
use std::marker::Model;

/// What sends CLTUs (communications link transmission units, CCSDS 231.0-B). An antenna can move to
/// a worker's thread.
pub trait Antenna: Send + Drop {
    /// The octets of each CLTU that was sent so far, the oldest first, or none where the antenna
    /// doesn't tell.
    ghost sent: { Self → Option (List (List ℕ)) };

    /// How often a call has failed. The count never falls, and stands still at the last `u64`.
    ghost faults: { Self → ℕ };

    /// Sends the octets of one CLTU. After `Failed` it doesn't count as sent.
    fn send(&mut self, octets: &[u8]) -> Result<(), Failed>
        ensures told { Tells (sent self.old) (sent self.new) (sent_by result octets.now) }
        ensures faults { FailsOnlyByFault (faults self.old) (faults self.new) result };
}

/// An antenna in memory, which keeps what was sent, and fails at the calls of a list and where it
/// was told to.
///
/// Where memory is refused to what it keeps, it stops telling, and sends as before.
#[derive(Debug, Drop)]
pub struct AntennaSim {
    alloc: Global,
    sent: Vec<Octets>,
    tells: bool,
    is_broken: bool,
    failing: FailingCalls,
    faults: Faults,
}

impl Model for AntennaSim {
    ghost use Rattle.antenna_core.specs.AntennaSim.{SimState, told_of};

    ghost Value = { SimState };

    ghost view = { λ sim. record {
      told = told_of sim.tells sim.sent.items;
      is_broken = sim.is_broken;
      failing = sim.failing;
      faults = sim.faults;
    } };
}

impl AntennaSim {
    /// An antenna that sent nothing yet, and whose calls of this list fail, counted from 1.
    pub fn new(alloc: Global, failing_calls: Vec<u64>) -> AntennaSim
        ensures { result ≡ unsent failing_calls.items }
    {
        AntennaSim {
            alloc,
            sent: Vec::new(alloc),
            tells: true,
            is_broken: false,
            failing: FailingCalls::new(failing_calls),
            faults: Faults::new(),
        }
    }

    /// The next send fails.
    pub fn break_send(&mut self)
        ensures { self.new ≡ record self.old { is_broken = true } }
    {
        self.is_broken = true;
    }

    /// The octets of each CLTU that was sent, the oldest first, or none once memory was refused to
    /// them.
    pub fn sent(&self) -> Option<&[Octets]>
        ensures { option_copied result ≡ self.now.told }
    {
        if self.tells { Some(&self.sent) } else { None }
    }

    /// How often a call has failed.
    pub fn faults(&self) -> u64
        ensures { result ≡ self.now.faults }
    {
        self.faults.count()
    }

    // Keeps the octets of a CLTU that is sent.
    fn keep(&mut self, octets: &[u8])
        ensures told { Tells self.old.told self.new.told (octets.now ∷ []) }
        ensures rest { self.new ≡ record self.old { told = self.new.told } }
    {
        match Octets::copy_of(self.alloc, octets) {
            Ok(kept) => self.tells &= self.sent.push(kept).is_ok(),
            Err(_) => self.tells = false,
        }
    }
}

impl Antenna for AntennaSim {
    ghost sent = { λ sim. sim.told };

    ghost faults = { λ sim. sim.faults };

    /// Fails where the call is listed or was broken, else keeps the octets.
    fn send(&mut self, octets: &[u8]) -> Result<(), Failed>
        ensures told { Tells self.old.told self.new.told (sent_by result octets.now) }
        ensures faults { FailsOnlyByFault self.old.faults self.new.faults result }

        // Which calls fail, and what those behind will do.
        ensures fails { IsErr result ↔ IsTrue (fails_now self.old) }
        ensures rest { self.new ≡ after_send self.old self.new.told self.new.faults }
    {
        if self.failing.count_call() || self.is_broken {
            self.is_broken = false;
            return self.faults.fail();
        }
        self.keep(octets);
        Ok(())
    }
}
