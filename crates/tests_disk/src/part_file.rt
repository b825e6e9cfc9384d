// A file in memory that moves its octets in parts.
ghost use Rattle.std.specs.Prelude.{◌≡◌, ◌≤◌, length, IfOk, OnOk, OnErr, IsTrue};
ghost use Rattle.disk_model.specs.Images.{overwritten};
ghost use Rattle.tests_disk.specs.PartFile.{pending_of, fits, with_change, opened};

use crate::Change;
use disk_model::RawFile;
use octet_core::Octets;
use std::alloc::{AllocError, Global};
use std::io;
use std::io::ErrorKind;
use std::marker::Model;

/// A file in memory, with room for 16 octets. One call moves 3 octets at most, and each second
/// write is interrupted first. A file that is opened holds the octets of its path; one that is made
/// holds none.
///
/// It keeps all that was ever written to it in a log: a moment is the number of changes until then.
#[derive(Debug, Drop)]
pub struct PartFile {
    alloc: Global,
    start: Vec<u8>,
    log: Vec<Change>,
    content: Vec<u8>,
    path: String,
    to_be_made: bool,
    name_synced: bool,
    locked: bool,
    // Whether the next write is interrupted.
    interrupts: bool,
}

// How many octets the file has room for, and how many one call moves at most.
const ROOM: usize = 16;

const PART: usize = 3;

impl Model for PartFile {
    ghost use Rattle.std.specs.Prelude.{Some, string_bytes};
    ghost use Rattle.tests_disk.specs.PartFile.{PartState, Agrees};

    ghost Value = { PartState };

    ghost view = { λ file. record {
      start = file.start.items;
      log = file.log.items;
      asked = record {
        path = string_bytes file.path;
        to_be_made = file.to_be_made;
        name_synced = file.name_synced;
        locked = file.locked;
        found = Some file.start.items;
      };
    } };

    ghost invariant = { λ file. Agrees file.start.items file.log.items file.content.items };
}

impl PartFile {
    // A file at this path, which holds these octets.
    fn holding(
        alloc: Global,
        path: &str,
        to_be_made: bool,
        octets: &[u8],
    ) -> Result<PartFile, AllocError>
        ensures { IfOk result (λ file. file ≡ opened path.now to_be_made octets.now) }
    {
        Ok(PartFile {
            alloc,
            start: Vec::from_slice(alloc, octets)?,
            log: Vec::new(alloc),
            content: Vec::from_slice(alloc, octets)?,
            path: String::from_str(alloc, path)?,
            to_be_made,
            name_synced: false,
            locked: false,
            interrupts: false,
        })
    }

    // How many of the octets the next write moves. It is interrupted each second time, and fails
    // where there is no room.
    fn next_part(&mut self, place: u64, octets: &[u8]) -> io::Result<usize>
        ensures same { self.new ≡ self.old }
        ensures bound { IfOk result (λ count. count ≤ length octets.now) }
    {
        self.interrupts = !self.interrupts;
        let room = ROOM - (place as usize).min(ROOM);
        let count = octets.len().min(PART).min(room);
        if self.interrupts {
            Err(ErrorKind::Interrupted.into())
        } else if count == 0 && !octets.is_empty() {
            Err(ErrorKind::StorageFull.into())
        } else {
            Ok(count)
        }
    }

    // Makes a change, or none where memory is refused.
    fn change(&mut self, change: Change) -> Result<(), AllocError>
        requires { IsTrue (fits (pending_of self.old) change) }
        ensures ok { OnOk result (self.new ≡ with_change self.old change) }
        ensures err { OnErr result (self.new ≡ self.old) }
    {
        self.log.reserve(1)?;
        match &change {
            Change::Begun { place, octets, .. } | Change::WentOn { place, octets } => {
                overwrite(&mut self.content, *place as usize, octets.as_slice())?;
            }
            Change::Cut { size } => self.content.truncate(*size as usize),
            Change::Synced => {}
        }
        match self.log.push(change) {
            Ok(()) => Ok(()),
            Err(_) => unreachable!(),
        }
    }
}

// Writes octets over those at a place, and past the end, or changes nothing where memory is
// refused.
fn overwrite(content: &mut Vec<u8>, place: usize, octets: &[u8]) -> Result<(), AllocError>
    ensures ok { OnOk result (content.new.items ≡ overwritten content.old.items place octets.now) }
    ensures err { OnErr result (content.new.items ≡ content.old.items) }
{
    let place = place.min(content.len());
    let inside = octets.len().min(content.len() - place);
    content.extend_from_slice(&octets[inside..])?;
    content[place..place + inside].copy_from_slice(&octets[..inside]);
    Ok(())
}

impl RawFile for PartFile {
    ghost use Rattle.std.specs.Prelude.{Some};
    ghost use Rattle.tests_disk.specs.PartFile.{IsImageSince};
    ghost use Rattle.tests_disk.specs.PartFileLaws.{is_coherent, counted_now, only_one_now};

    ghost pending = { λ file. Some (pending_of file) };

    ghost moment = { λ file. length file.log };

    ghost images_since = { IsImageSince };

    ghost asked = { λ file. file.asked };

    fn open(files: &HostRuntime, path: &str) -> io::Result<PartFile> {
        Ok(PartFile::holding(files.alloc(), path, false, path.as_bytes())?)
    }

    fn make(files: &HostRuntime, path: &str) -> io::Result<PartFile> {
        Ok(PartFile::holding(files.alloc(), path, true, &[])?)
    }

    fn lock(&mut self) -> io::Result<()> {
        self.locked = true;
        Ok(())
    }

    fn sync_name(&mut self, _: &HostRuntime) -> io::Result<()> {
        self.name_synced = true;
        Ok(())
    }

    fn length(&self) -> io::Result<u64> {
        Ok(self.content.len() as u64)
    }

    fn read(&self, place: u64, into: &mut [u8]) -> io::Result<usize> {
        let place = (place as usize).min(self.content.len());
        let count = into.len().min(PART).min(self.content.len() - place);
        into[..count].copy_from_slice(&self.content[place..place + count]);
        Ok(count)
    }

    fn write(&mut self, place: u64, octets: &[u8]) -> io::Result<usize> {
        let count = self.next_part(place, octets)?;
        let part = Octets::copy_of(self.alloc, &octets[..count]).map_err(AllocError::from)?;
        self.change(Change::Begun {
            place,
            count: octets.len() as u64,
            octets: part,
        })?;
        Ok(count)
    }

    fn write_on(&mut self, place: u64, octets: &[u8]) -> io::Result<usize> {
        let count = self.next_part(place, octets)?;
        let part = Octets::copy_of(self.alloc, &octets[..count]).map_err(AllocError::from)?;
        self.change(Change::WentOn {
            place,
            octets: part,
        })?;
        Ok(count)
    }

    fn cut(&mut self, size: u64) -> io::Result<()> {
        Ok(self.change(Change::Cut { size })?)
    }

    fn sync(&mut self) -> io::Result<()> {
        Ok(self.change(Change::Synced)?)
    }

    ghost read_is_image = { is_coherent };

    ghost counts_now = { counted_now };

    ghost only_now = { only_one_now };
}
