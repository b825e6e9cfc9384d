// An antenna that writes to a file.
ghost use Rattle.std.specs.Prelude.{◌≡◌, IfOk};

use crate::kept_file::KeptFile;
use antenna_core::Antenna;
use octet_core::{Failed, Faults};
use std::alloc::Global;
use std::io;
use std::io::Write;
use std::marker::Model;

/// An antenna that appends the octets of each CLTU to a file, one behind the other, and behind that
/// a line to a second file, with the first one's place and its length: `PLACE LENGTH`. So CLTUs can
/// be told apart. Both files are synced before a call answers. It tells nothing of what it sent.
///
/// Where a call failed, octets of its CLTU may stand in the file, and no line names them. Each call
/// of a file that fails is reported, with the system's reason.
#[derive(Drop)]
pub struct FileAntenna<W: Write + Send + Drop> {
    alloc: Global,
    cltus: KeptFile,
    lines: KeptFile,
    reports: W,
    faults: Faults,
}

impl<W: Write + Send + Drop> Model for FileAntenna<W> {
    ghost use Rattle.antenna_file.specs.AntennaState.{AntennaState};

    ghost Value = { AntennaState };

    ghost view = { λ antenna. record { faults = antenna.faults } };
}

impl<W: Write + Send + Drop> FileAntenna<W> {
    /// An antenna over the file at this path, and the one beside it whose path ends with `.lines`,
    /// which reports to this writer. Each is made where there is none, for its user alone, and goes
    /// on where there is one. The first one is locked: it is an error of the kind `WouldBlock` where
    /// another antenna, here or in another process, has it.
    pub fn open(files: &HostRuntime, path: &str, reports: W) -> io::Result<FileAntenna<W>>
        ensures { IfOk result (λ antenna. antenna ≡ record { faults = 0 }) }
    {
        let beside = format!(in files.alloc(); "{path}.lines")?;
        Ok(FileAntenna {
            alloc: files.alloc(),
            cltus: KeptFile::open_locked(files, path)?,
            lines: KeptFile::open(files, beside.as_str())?,
            reports,
            faults: Faults::new(),
        })
    }

    /// How often a call has failed.
    pub fn faults(&self) -> u64
        ensures { result ≡ self.now.faults }
    {
        self.faults.count()
    }

    /// What it reports to.
    pub fn reports(&self) -> &W {
        &self.reports
    }
}

// Appends a CLTU to a file, and the line that names it to another.
fn append<W: Write>(
    alloc: Global,
    (cltus, lines): (&mut KeptFile, &mut KeptFile),
    octets: &[u8],
    reports: &mut W,
) -> io::Result<()> {
    let place = cltus.size(reports)?;
    let length = octets.len();
    let line = format!(in alloc; "{place} {length}\n")?;
    cltus.append(octets, reports)?;
    lines.append(line.as_bytes(), reports)
}

impl<W: Write + Send + Drop> Antenna for FileAntenna<W> {
    ghost use Rattle.std.specs.Prelude.{None};

    ghost sent = { λ antenna. None };

    ghost faults = { λ antenna. antenna.faults };

    /// Appends the octets and syncs them. An error of a file is a fault, and so is want of memory.
    fn send(&mut self, octets: &[u8]) -> Result<(), Failed> {
        let files = (&mut self.cltus, &mut self.lines);
        match append(self.alloc, files, octets, &mut self.reports) {
            Ok(()) => Ok(()),
            Err(_) => self.faults.fail(),
        }
    }
}
