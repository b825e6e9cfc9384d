// A disk whose syncs yield, and of which one may be held.
ghost use Rattle.std.specs.Prelude.{◌≡◌};

use crate::{Hold, Pace};
use disk_model::{Disk, MemoryDisk};
use octet_core::Failed;
use std::marker::Model;

/// A disk in memory whose syncs yield at random, and of which one may be held. It tells none of its
/// octets.
#[derive(Drop)]
pub struct PacedDisk {
    pub pace: Pace,
    pub hold: Hold,
    pub disk: MemoryDisk,
}

impl Model for PacedDisk {
    ghost use Rattle.disk_model.specs.MemoryDisk.{DiskState};

    ghost Value = { DiskState };

    ghost view = { λ paced. paced.disk };
}

impl Disk for PacedDisk {
    ghost use Rattle.std.specs.Prelude.{None, length};
    ghost use Rattle.disk_model.specs.MemoryDisk.{content_of};

    ghost pending = { λ _. None };

    ghost extent = { λ paced. length (content_of paced) };

    ghost moment = { λ _. 0 };

    ghost images_since = { λ _ _ _. ⊥ };

    ghost faults = { λ paced. paced.faults };

    ghost makes = { λ _ _ _. Unit {0} };

    ghost fails = { λ _ _ _. Unit {0} };

    ghost fails_to_read = { λ _ _. Unit {0} };

    fn size(&self) -> u64 {
        self.disk.size()
    }

    fn read_at(&mut self, place: u64, into: &mut [u8]) -> Result<(), Failed> {
        self.disk.read_at(place, into)
    }

    fn write_at(&mut self, place: u64, octets: &[u8]) -> Result<(), Failed> {
        self.disk.write_at(place, octets)
    }

    fn cut(&mut self, size: u64) -> Result<(), Failed> {
        self.disk.cut(size)
    }

    fn sync(&mut self) -> Result<(), Failed> {
        self.pace.rests();
        self.hold.begin();
        self.disk.sync()
    }

    ghost read_is_image = { λ paced. tt };

    ghost size_is_read = { λ paced. tt };

    ghost counts_now = { λ paced since image earlier is. is };

    ghost only_now = { λ paced image since. since };
}
