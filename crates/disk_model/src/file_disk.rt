// A disk over a file.
ghost use Rattle.std.specs.Prelude.{◌≡◌, true, false, IfOk};
ghost use Rattle.disk_model.specs.RawFile.{HasFile};

use crate::pieces::{read_whole, write_whole};
use crate::{Disk, RawFile, SystemFile};
use octet_core::{Failed, Faults};
use std::io;
use std::marker::Model;

/// A disk over a file, which no other has meanwhile. It tells its octets where the file tells them.
///
/// Each call costs one call of the file, or more where that one moves only a part of the octets or
/// is interrupted. An error of the file is a fault, whatever its kind.
#[derive(Drop)]
pub struct DiskOver<F: RawFile> {
    file: F,
    size: u64,
    faults: Faults,
    sync_failed: bool,
}

/// A disk over a file of the system. It tells none of its octets.
pub type FileDisk = DiskOver<SystemFile>;

impl<F: RawFile> Model for DiskOver<F> {
    ghost use Rattle.disk_model.specs.FileDisk.{FileState};
    ghost use Rattle.disk_model.specs.RawFile.{IsSizeOf};

    ghost Value = { FileState F };

    ghost view = { λ disk. record {
      file = disk.file;
      size = disk.size;
      faults = disk.faults;
      sync_failed = disk.sync_failed;
    } };

    ghost invariant = { λ disk. IsSizeOf (F.pending disk.file) disk.size };
}

impl<F: RawFile> DiskOver<F> {
    /// A disk over the file at this path, which is made where there is none, and whose octets are
    /// kept where there is one. The file's name is on its folder's disk then. It is an error of the
    /// kind `WouldBlock` where another disk, here or in another process, has the file, and one of
    /// the kind `OutOfMemory` where memory is wanted.
    pub fn create(files: &HostRuntime, path: &str) -> io::Result<DiskOver<F>>
        ensures faults { IfOk result (λ disk. disk.faults ≡ 0) }
        ensures syncs { IfOk result (λ disk. disk.sync_failed ≡ false) }
        ensures file { IfOk result (λ disk. HasFile path.now true (F.asked disk.file)
            (F.pending disk.file)) }
    {
        let mut file = F::make(files, path)?;
        file.lock()?;
        file.sync_name(files)?;
        DiskOver::over(file)
    }

    /// A disk over the file at this path. It is an error where there is none, and one of the kind
    /// `WouldBlock` where another disk, here or in another process, has the file, and one of the
    /// kind `OutOfMemory` where memory is wanted.
    pub fn open(files: &HostRuntime, path: &str) -> io::Result<DiskOver<F>>
        ensures faults { IfOk result (λ disk. disk.faults ≡ 0) }
        ensures syncs { IfOk result (λ disk. disk.sync_failed ≡ false) }
        ensures file { IfOk result (λ disk. HasFile path.now false (F.asked disk.file)
            (F.pending disk.file)) }
    {
        let mut file = F::open(files, path)?;
        file.lock()?;
        DiskOver::over(file)
    }

    // A disk over a file that it has, with no fault yet.
    fn over(file: F) -> io::Result<DiskOver<F>>
        ensures faults { IfOk result (λ disk. disk.faults ≡ 0) }
        ensures syncs { IfOk result (λ disk. disk.sync_failed ≡ false) }
        ensures file { IfOk result (λ disk. disk.file ≡ file) }
    {
        let size = file.length()?;
        Ok(DiskOver {
            file,
            size,
            faults: Faults::new(),
            sync_failed: false,
        })
    }

    /// How often it has failed.
    pub fn faults(&self) -> u64
        ensures { result ≡ self.now.faults }
    {
        self.faults.count()
    }
}

impl<F: RawFile + Send> Disk for DiskOver<F> {
    ghost use Rattle.disk_model.specs.FileDisk.{IsMadeCall, IsFailedCall, IsFailedRead, extent_of};
    ghost use Rattle.disk_model.specs.FileDisk.{size_read};

    ghost pending = { λ disk. F.pending disk.file };

    ghost extent = { λ disk. extent_of (F.pending disk.file) disk.size };

    ghost moment = { λ disk. F.moment disk.file };

    ghost images_since = { λ disk. F.images_since disk.file };

    ghost faults = { λ disk. disk.faults };

    ghost makes = { IsMadeCall F.asked };

    ghost fails = { IsFailedCall F.asked };

    ghost fails_to_read = { IsFailedRead };

    /// How many octets the file has, as far as this disk wrote and cut it.
    fn size(&self) -> u64 {
        self.size
    }

    /// Reads until all octets are there. A file that ends before them is at fault.
    fn read_at(&mut self, place: u64, into: &mut [u8]) -> Result<(), Failed> {
        match read_whole(&self.file, place, into) {
            Ok(()) => Ok(()),
            Err(_) => self.faults.fail(),
        }
    }

    /// Writes until all octets are taken. A file that takes none of a piece is at fault.
    fn write_at(&mut self, place: u64, octets: &[u8]) -> Result<(), Failed> {
        if place.checked_add(octets.len() as u64).is_none() {
            return self.faults.fail();
        }
        match write_whole(&mut self.file, &mut self.size, place, octets) {
            Ok(()) => Ok(()),
            Err(_) => self.faults.fail(),
        }
    }

    fn cut(&mut self, size: u64) -> Result<(), Failed> {
        match self.file.cut(size) {
            Ok(()) => {
                self.size = size;
                Ok(())
            }
            Err(_) => self.faults.fail(),
        }
    }

    /// Syncs the octets and the length. After a sync that failed each later one fails, since the
    /// system may have dropped what it couldn't write, and tells that once.
    fn sync(&mut self) -> Result<(), Failed> {
        if !self.sync_failed && self.file.sync().is_ok() {
            return Ok(());
        }
        self.sync_failed = true;
        self.faults.fail()
    }

    ghost read_is_image = { λ disk. F.read_is_image disk.file };

    ghost size_is_read = { λ disk. size_read (F.pending disk.file) disk.size };

    ghost counts_now = { λ disk since image earlier is. F.counts_now disk.file since image earlier
        is };

    ghost only_now = { λ disk image since. F.only_now disk.file image since };
}
