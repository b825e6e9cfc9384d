// A file of the system whose failed calls are reported.

use disk_model::{RawFile, SystemFile};
use operator_side::{Stamped, report};
use std::alloc::{AllocError, Global};
use std::fs::{OpenFile, OpenOptions};
use std::io;
use std::io::ErrorKind;
use std::marker::Model;
use std::os::unix::fs::OpenOptionsExt;

// Who may read and write a file that is made: its user alone.
const MODE: u32 = 0o600;

/// A file of the system. It tells none of its octets, and keeps what was asked to have it. A call of
/// it that fails is reported on standard error, with the system's reason.
#[derive(Drop)]
pub struct LoggedFile {
    rt: HostRuntime,
    path: String,
    file: SystemFile,
}

impl Model for LoggedFile {
    ghost use Rattle.disk_model.specs.RawFile.{Asked};

    ghost Value = { Asked };

    ghost view = { λ file. file.file };
}

impl LoggedFile {
    // Reports that a call failed, and why, unless it was only interrupted.
    fn tell(&self, what: &str, error: Option<&io::Error>) {
        let Some(error) = error else {
            return;
        };
        if error.kind() == ErrorKind::Interrupted {
            return;
        }
        let alloc = self.rt.alloc();
        report(
            &mut Stamped::new(&self.rt, alloc),
            failed(alloc, self.path.as_str(), what, error),
        );
    }

    // Reports that a write failed, and what to do.
    fn tell_unwritten(&self, error: Option<&io::Error>) {
        let Some(error) = error else {
            return;
        };
        if error.kind() == ErrorKind::Interrupted {
            return;
        }
        let alloc = self.rt.alloc();
        report(
            &mut Stamped::new(&self.rt, alloc),
            unwritten(alloc, self.path.as_str(), error),
        );
    }

    // Reports that a sync failed. The system may have dropped what it couldn't write, and tells that
    // once.
    fn tell_unsynced(&self, error: Option<&io::Error>) {
        let Some(error) = error else {
            return;
        };
        let alloc = self.rt.alloc();
        report(
            &mut Stamped::new(&self.rt, alloc),
            unsynced(alloc, self.path.as_str(), error),
        );
    }
}

// That a call failed.
fn failed(alloc: Global, path: &str, what: &str, error: &io::Error) -> Result<String, AllocError> {
    format!(in alloc; "archive {path}: {what} failed: {error}\n")
}

// That a write failed. A second failure in a row ends what stores entries.
fn unwritten(alloc: Global, path: &str, error: &io::Error) -> Result<String, AllocError> {
    format!(in alloc;
        "archive {path}: a write failed: {error}; make room on its disk; if nothing is stored from \
        now on, stop the station and start it again\n"
    )
}

// That a sync failed.
fn unsynced(alloc: Global, path: &str, error: &io::Error) -> Result<String, AllocError> {
    format!(in alloc;
        "archive {path}: a sync failed: {error}; don't open the file again before the machine or its \
        volume was started again\n"
    )
}

impl RawFile for LoggedFile {
    ghost use Rattle.std.specs.Prelude.{None};

    ghost pending = { λ _. None };

    ghost moment = { λ _. 0 };

    ghost images_since = { λ _ _ _. ⊥ };

    ghost asked = { λ file. file };

    fn open(files: &HostRuntime, path: &str) -> io::Result<LoggedFile> {
        Ok(LoggedFile {
            rt: *files,
            path: String::from_str(files.alloc(), path)?,
            file: SystemFile::open(files, path)?,
        })
    }

    fn make(files: &HostRuntime, path: &str) -> io::Result<LoggedFile> {
        make_private(files, path)?;
        Ok(LoggedFile {
            rt: *files,
            path: String::from_str(files.alloc(), path)?,
            file: SystemFile::make(files, path)?,
        })
    }

    fn lock(&mut self) -> io::Result<()> {
        self.file.lock()
    }

    fn sync_name(&mut self, files: &HostRuntime) -> io::Result<()> {
        let answer = self.file.sync_name(files);
        self.tell("a sync of its folder", answer.as_ref().err());
        answer
    }

    fn length(&self) -> io::Result<u64> {
        let answer = self.file.length();
        self.tell("a question for its size", answer.as_ref().err());
        answer
    }

    fn read(&self, place: u64, into: &mut [u8]) -> io::Result<usize> {
        let answer = self.file.read(place, into);
        self.tell("a read", answer.as_ref().err());
        answer
    }

    fn write(&mut self, place: u64, octets: &[u8]) -> io::Result<usize> {
        let answer = self.file.write(place, octets);
        self.tell_unwritten(answer.as_ref().err());
        answer
    }

    fn write_on(&mut self, place: u64, octets: &[u8]) -> io::Result<usize> {
        let answer = self.file.write_on(place, octets);
        self.tell_unwritten(answer.as_ref().err());
        answer
    }

    fn cut(&mut self, size: u64) -> io::Result<()> {
        let answer = self.file.cut(size);
        self.tell("a cut", answer.as_ref().err());
        answer
    }

    fn sync(&mut self) -> io::Result<()> {
        let answer = self.file.sync();
        self.tell_unsynced(answer.as_ref().err());
        answer
    }

    ghost read_is_image = { λ file. tt };

    ghost counts_now = { λ file since image earlier is. is };

    ghost only_now = { λ file image since. since };
}

// Makes an empty file at this path, which its user alone may read and write, where there is none.
fn make_private(files: &HostRuntime, path: &str) -> io::Result<()> {
    let _made = OpenOptions::new()
        .write(true)
        .create(true)
        .mode(MODE)
        .open(files, path)?;
    Ok(())
}
