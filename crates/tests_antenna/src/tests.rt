// What stands in the files of an antenna, and what it reports.
use antenna_core::Antenna;
use antenna_file::FileAntenna;
use std::io::ErrorKind;
use std::os::unix::fs::{PermissionsExt, symlink};
use std::test::Fail;
use std::{fs, io};

// An antenna of this path that reports to octets.
fn open(files: &HostRuntime, path: &str) -> io::Result<FileAntenna<Vec<u8>>> {
    FileAntenna::open(files, path, Vec::new(files.alloc()))
}

// Sends these by an antenna of this path, and answers how often it failed.
fn sent(files: &HostRuntime, path: &str, cltus: &[&[u8]]) -> io::Result<u64> {
    let mut antenna = open(files, path)?;
    for octets in cltus {
        let _ = antenna.send(octets);
    }
    Ok(antenna.faults())
}

// An antenna goes on in a file that is there, and its lines tell the CLTUs apart. Its user alone may
// read the files.
#[test]
fn cltus_stand_one_behind_the_other(rt: HostRuntime) -> Result<(), Fail> {
    let faults = (
        sent(&rt, "cltus", &[b"\xeb\x90ab", b"c"])?,
        sent(&rt, "cltus", &[b"defgh"])?,
    );
    let (octets, lines) = (fs::read(&rt, "cltus")?, fs::read(&rt, "cltus.lines")?);
    let mode = fs::metadata(&rt, "cltus")?.permissions().mode();
    fs::remove_file(&rt, "cltus")?;
    fs::remove_file(&rt, "cltus.lines")?;
    assert_eq!(rt; faults, (0, 0));
    assert_eq!(rt; octets.as_slice(), b"\xeb\x90abcdefgh".as_slice());
    assert_eq!(rt; lines.as_slice(), b"0 4\n4 1\n5 5\n".as_slice());
    assert_eq!(rt; mode & 0o777, 0o600);
    Ok(())
}

// Sends a CLTU to a device by this name, and answers whether that was a fault that no line names, with
// this report.
fn is_fault(rt: &HostRuntime, name: &str, device: &str, reported: &[u8]) -> Result<bool, Fail> {
    let beside = format!(in rt.alloc(); "{name}.lines")?;
    symlink(rt, device, name)?;
    let mut antenna = open(rt, name)?;
    let is_failed = antenna.send(b"ab").is_err();
    let lines = fs::read(rt, beside.as_str())?;
    fs::remove_file(rt, name)?;
    fs::remove_file(rt, beside.as_str())?;
    let is_told = antenna.reports().starts_with(reported);
    Ok(is_failed && antenna.faults() == 1 && lines.is_empty() && is_told)
}

// `/dev/full` takes no octet, and `/dev/null` can't be synced, so no line names the CLTU.
#[test]
fn a_file_that_takes_or_keeps_nothing_is_at_fault(rt: HostRuntime) -> Result<(), Fail> {
    assert!(rt; is_fault(&rt, "full", "/dev/full", b"CLTUs full: a write failed: ")?);
    assert!(rt; is_fault(&rt, "null", "/dev/null", b"CLTUs null: a sync failed: ")?);
    Ok(())
}

#[test]
fn a_file_has_one_antenna(rt: HostRuntime) -> Result<(), Fail> {
    let first = open(&rt, "locked")?;
    let kind = open(&rt, "locked").err().map(|error| error.kind());
    drop(first);
    assert_eq!(rt; sent(&rt, "locked", &[])?, 0);
    fs::remove_file(&rt, "locked")?;
    fs::remove_file(&rt, "locked.lines")?;
    assert_eq!(rt; kind, Some(ErrorKind::WouldBlock));
    Ok(())
}

#[test]
fn a_file_that_cannot_be_made_is_an_error(rt: HostRuntime) -> Result<(), Fail> {
    let kind = sent(&rt, "no/such/folder", &[])
        .err()
        .map(|error| error.kind());
    assert_eq!(rt; kind, Some(ErrorKind::NotFound));
    Ok(())
}
