// A file that is appended to, and whose failed calls are reported.

use operator_side::report;
use std::alloc::{AllocError, Global};
use std::fs::{File, OpenFile, OpenOptions};
use std::io;
use std::io::Write;
use std::os::unix::fs::OpenOptionsExt;

// Who may read and write a file that is made: its user alone.
const MODE: u32 = 0o600;

/// A file that is appended to, by its path.
#[derive(Drop)]
pub(crate) struct KeptFile {
    alloc: Global,
    path: String,
    file: File,
}

impl KeptFile {
    /// The file at this path, which is made where there is none.
    pub fn open(files: &HostRuntime, path: &str) -> io::Result<KeptFile> {
        Ok(KeptFile {
            alloc: files.alloc(),
            path: String::from_str(files.alloc(), path)?,
            file: OpenOptions::new()
                .append(true)
                .create(true)
                .mode(MODE)
                .open(files, path)?,
        })
    }

    /// Opens it, and locks it until it is dropped.
    pub fn open_locked(files: &HostRuntime, path: &str) -> io::Result<KeptFile> {
        let kept = KeptFile::open(files, path)?;
        kept.file.try_lock()?;
        Ok(kept)
    }

    /// How many octets it has.
    pub fn size<W: Write>(&self, reports: &mut W) -> io::Result<u64> {
        match self.file.metadata() {
            Ok(data) => Ok(data.len()),
            Err(error) => {
                report(reports, self.failed("its size isn't known", &error));
                Err(error)
            }
        }
    }

    /// Appends octets and syncs them.
    pub fn append<W: Write>(&mut self, octets: &[u8], reports: &mut W) -> io::Result<()> {
        if let Err(error) = self.file.write_all(octets) {
            report(reports, self.failed("a write failed", &error));
            return Err(error);
        }
        let synced = self.file.sync_all();
        if let Err(error) = &synced {
            report(reports, self.unsynced(error));
        }
        synced
    }

    // That a call failed.
    fn failed(&self, what: &str, error: &io::Error) -> Result<String, AllocError> {
        let path = self.path.as_str();
        format!(in self.alloc; "CLTUs {path}: {what}: {error}\n")
    }

    // That a sync failed: the system may drop what it couldn't write, and then says nothing of it.
    fn unsynced(&self, error: &io::Error) -> Result<String, AllocError> {
        let path = self.path.as_str();
        format!(in self.alloc;
            "CLTUs {path}: a sync failed: {error}; \
            don't open the file again before the machine or its volume was started again\n"
        )
    }
}
