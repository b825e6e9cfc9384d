// An antenna whose sends yield, and of which one may be held.
ghost use Rattle.std.specs.Prelude.{None};

use crate::{Hold, Pace};
use antenna_core::{Antenna, AntennaSim};
use octet_core::Failed;

/// An antenna in memory whose sends yield at random, and of which one may be held. It doesn't tell.
#[derive(Drop)]
pub struct PacedAntenna {
    pub pace: Pace,
    pub hold: Hold,
    pub antenna: AntennaSim,
}

impl Antenna for PacedAntenna {
    ghost sent = { λ _. None };

    ghost faults = { λ paced. paced.antenna.faults };

    fn send(&mut self, octets: &[u8]) -> Result<(), Failed> {
        self.pace.rests();
        self.hold.begin();
        self.antenna.send(octets)
    }
}
