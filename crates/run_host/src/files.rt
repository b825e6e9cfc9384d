// The files of a run.
ghost use Rattle.std.specs.Prelude.{◌≡◌, ◌⊎◌, false, None, IfOk, IfErr, OnErr};
ghost use Rattle.std.specs.IoError.{error_kind};
ghost use Rattle.std.specs.Str.{IsUtf8};
ghost use Rattle.disk_model.specs.RawFile.{HasFile};

use crate::logged_file::LoggedFile;
use antenna_file::FileAntenna;
use disk_model::DiskOver;
use octet_core::Octets;
use operator_side::{Stamped, report};
use run_plan::RunPlan;
use std::io::ErrorKind;
use std::{io, str};

/// A disk over a file whose failed calls are reported.
pub type LoggedDisk = DiskOver<LoggedFile>;

/// The files of a run.
#[derive(Drop)]
pub struct RunFiles<'a> {
    /// The archive's.
    pub disk: LoggedDisk,
    /// The one that takes CLTUs.
    pub antenna: FileAntenna<Stamped<'a, HostRuntime>>,
}

/// Opens the files that a plan names: the archive's, which has to be there, and the antenna's,
/// which is made where there is none. Both are locked. What can't be opened is told on standard error.
/// A path that is no text is an error of the kind `InvalidInput`.
pub fn open_files<'a>(files: &'a HostRuntime, plan: &RunPlan) -> io::Result<RunFiles<'a>>
    ensures file { IfOk result (λ opened. HasFile plan.now.path false opened.disk.file None) }
    ensures no_text { IfErr result (λ error. (¬ IsUtf8 plan.now.path) ⊎ (¬ IsUtf8 plan.now.antenna)
        → error_kind error ≡ ErrorKind.InvalidInput) }
{
    let (archive, cltus) = (text_of(&plan.path)?, text_of(&plan.antenna)?);
    let reports = Stamped::new(files, files.alloc());
    Ok(RunFiles {
        disk: told(files, "archive", archive, LoggedDisk::open(files, archive))?,
        antenna: told(
            files,
            "CLTUs",
            cltus,
            FileAntenna::open(files, cltus, reports),
        )?,
    })
}

// An opening, which is told where it failed.
fn told<T: Drop>(
    files: &HostRuntime,
    what: &str,
    path: &str,
    opened: io::Result<T>,
) -> io::Result<T>
    ensures { result ≡ opened }
{
    if let Err(error) = &opened {
        let line = format!(in files.alloc(); "{what} {path}: {error}\n");
        report(&mut Stamped::new(files, files.alloc()), line);
    }
    opened
}

/// A path as a text, which it was on the command line.
pub fn text_of(path: &Octets) -> io::Result<&str>
    ensures text { IfOk result (λ text. text.now ≡ path.now) }
    ensures no_text { OnErr result (¬ IsUtf8 path.now) }
    ensures kind { IfErr result (λ error. error_kind error ≡ ErrorKind.InvalidInput) }
{
    match str::from_utf8(path.as_slice()) {
        Ok(text) => Ok(text),
        Err(_) => Err(ErrorKind::InvalidInput.into()),
    }
}
