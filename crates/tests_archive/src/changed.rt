// An archive whose file someone else writes to.
ghost use Rattle.std.specs.Prelude.{◌≡◌};

use disk_model::{Disk, MemoryDisk};
use frame_archive::{ArchiveFault, FrameArchive, open_archive};
use octet_core::Failed;
use std::alloc::{AllocError, Global};
use std::marker::Model;
use std::test::Fail;

// A disk at whose second sync one octet becomes another. It tells none of its octets, so that no
// clause speaks of what it holds.
#[derive(Drop)]
struct Meddled {
    disk: MemoryDisk,
    place: u64,
    octet: u8,
    syncs: u64,
}

impl Model for Meddled {
    ghost use Rattle.disk_model.specs.MemoryDisk.{DiskState};

    ghost Value = { DiskState };

    ghost view = { λ meddled. meddled.disk };
}

impl Disk for Meddled {
    ghost use Rattle.std.specs.Prelude.{None, length};
    ghost use Rattle.disk_model.specs.MemoryDisk.{content_of};

    ghost pending = { λ _. None };

    ghost extent = { λ disk. length (content_of disk) };

    ghost moment = { λ _. 0 };

    ghost images_since = { λ _ _ _. ⊥ };

    ghost faults = { λ disk. disk.faults };

    ghost makes = { λ _ _ _. Unit {0} };

    ghost fails = { λ _ _ _. Unit {0} };

    ghost fails_to_read = { λ _ _. Unit {0} };

    fn size(&self) -> u64 {
        self.disk.size()
    }

    fn read_at(&mut self, place: u64, into: &mut [u8]) -> Result<(), Failed> {
        self.disk.read_at(place, into)
    }

    fn write_at(&mut self, place: u64, octets: &[u8]) -> Result<(), Failed> {
        self.disk.write_at(place, octets)
    }

    fn cut(&mut self, size: u64) -> Result<(), Failed> {
        self.disk.cut(size)
    }

    fn sync(&mut self) -> Result<(), Failed> {
        self.disk.sync()?;
        self.syncs = self.syncs.saturating_add(1);
        if self.syncs == 2 && self.place < self.disk.size() {
            self.disk.write_at(self.place, &[self.octet])?;
        }
        Ok(())
    }

    ghost read_is_image = { λ disk. tt };

    ghost size_is_read = { λ disk. tt };

    ghost counts_now = { λ disk since image earlier is. is };

    ghost only_now = { λ disk image since. since };
}

const OPEN: u8 = 0xa5;

const CLOSED: u8 = 0;

const GATE: u64 = 8;

// One change of the production status behind the gate, which stands open or closed when the archive
// is opened, and is the other one when it is opened again.
fn opened(alloc: Global, is_open: bool) -> Result<FrameArchive<Meddled>, AllocError> {
    let (gate, octet) = if is_open {
        (OPEN, CLOSED)
    } else {
        (CLOSED, OPEN)
    };
    let file = [
        b'S', b'L', b'E', b'A', 0, 0, 0, 1, gate, 0, 0, 0, 2, 0, 1, 3, 1, 0,
    ];
    let disk = Meddled {
        disk: MemoryDisk::holding(alloc, &file)?,
        place: GATE,
        octet,
        syncs: 0,
    };
    match open_archive(alloc, disk, 100) {
        Ok((archive, _)) => Ok(archive),
        Err(_) => Err(AllocError),
    }
}

// Whether the file has an entry when it is opened, and how many are expected and found when it is
// opened again.
const ROWS: [(bool, u64, u64); 2] = [(true, 1, 0), (false, 0, 1)];

#[test]
fn a_file_that_lost_or_gained_an_entry_is_changed(rt: HostRuntime) -> Result<(), Fail> {
    for (is_open, expected, found) in ROWS {
        let mut archive = opened(rt.alloc(), is_open)?;
        let fault = archive.reopen().err();
        assert_eq!(rt; fault, Some(ArchiveFault::Changed { expected, found }));
        assert_eq!(rt; archive.store().err(), Some(ArchiveFault::Stale));
    }
    Ok(())
}
