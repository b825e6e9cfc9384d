// A file of the system.
use crate::RawFile;
use std::fs::{File, OpenFile, OpenOptions};
use std::io;
use std::marker::Model;
use std::os::unix::fs::FileExt;
use std::path::Path;

/// A file of the system. It tells none of its octets, and keeps what was asked to have it.
///
/// It is an adapter, a line for each call: what the system makes of the call is claimed nowhere.
#[derive(Drop)]
pub struct SystemFile {
    path: String,
    file: File,
    to_be_made: bool,
    name_synced: bool,
    locked: bool,
}

impl Model for SystemFile {
    ghost use Rattle.std.specs.Prelude.{None, string_bytes};
    ghost use Rattle.disk_model.specs.RawFile.{Asked};

    ghost Value = { Asked };

    ghost view = { λ file. record {
      path = string_bytes file.path;
      to_be_made = file.to_be_made;
      name_synced = file.name_synced;
      locked = file.locked;
      found = None;
    } };
}

impl RawFile for SystemFile {
    ghost use Rattle.std.specs.Prelude.{None};

    ghost pending = { λ _. None };

    ghost moment = { λ _. 0 };

    ghost images_since = { λ _ _ _. ⊥ };

    ghost asked = { λ file. file };

    fn open(files: &HostRuntime, path: &str) -> io::Result<SystemFile> {
        Ok(SystemFile {
            path: String::from_str(files.alloc(), path)?,
            file: OpenOptions::new().read(true).write(true).open(files, path)?,
            to_be_made: false,
            name_synced: false,
            locked: false,
        })
    }

    fn make(files: &HostRuntime, path: &str) -> io::Result<SystemFile> {
        Ok(SystemFile {
            path: String::from_str(files.alloc(), path)?,
            file: OpenOptions::new()
                .read(true)
                .write(true)
                .create(true)
                .open(files, path)?,
            to_be_made: true,
            name_synced: false,
            locked: false,
        })
    }

    /// The lock goes with the file.
    fn lock(&mut self) -> io::Result<()> {
        self.file.try_lock()?;
        self.locked = true;
        Ok(())
    }

    fn sync_name(&mut self, files: &HostRuntime) -> io::Result<()> {
        File::open(files, folder_of(self.path.as_str()))?.sync_all()?;
        self.name_synced = true;
        Ok(())
    }

    fn length(&self) -> io::Result<u64> {
        Ok(self.file.metadata()?.len())
    }

    fn read(&self, place: u64, into: &mut [u8]) -> io::Result<usize> {
        self.file.read_at(into, place)
    }

    fn write(&mut self, place: u64, octets: &[u8]) -> io::Result<usize> {
        self.file.write_at(octets, place)
    }

    fn write_on(&mut self, place: u64, octets: &[u8]) -> io::Result<usize> {
        self.file.write_at(octets, place)
    }

    fn cut(&mut self, size: u64) -> io::Result<()> {
        self.file.set_len(size)
    }

    fn sync(&mut self) -> io::Result<()> {
        self.file.sync_all()
    }

    ghost read_is_image = { λ file. tt };

    ghost counts_now = { λ file since image earlier is. is };

    ghost only_now = { λ file image since. since };
}

// The folder that a path's last name stands in.
fn folder_of(path: &str) -> &str {
    match Path::new(path).parent() {
        Some(folder) if folder.as_str() != "" => folder.as_str(),
        _ => ".",
    }
}
