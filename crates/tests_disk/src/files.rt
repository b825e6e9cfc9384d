// Disks over files of the system, which the tests make in their own folder and remove. What is
// found in a file is told by std's own reader and writer of files.
ghost use Rattle.std.specs.Prelude.{◌≡◌};

use disk_model::{Disk, FileDisk};
use octet_core::Failed;
use std::fs;
use std::io::{ErrorKind, Result as IoResult};
use std::test::Fail;

// The paths of a disk: a plain one, one with a blank at its end, and one of 300 octets.
const PATHS: [&str; 3] = ["a_disk_over_a_file", "a_blank_at_the_end ", LONG];

const LONG: &str = "\
    ././././././././././././././././././././././././././././././././././././././././\
    ././././././././././././././././././././././././././././././././././././././././\
    ././././././././././././././././././././././././././././././././././././././././\
    ././././././././././././././././././././a_path_of_300_octets";

// Through the bound alone, as callers use a disk.
fn write_and_cut<D: Disk>(disk: &mut D) -> Result<[u8; 5], Failed>
    requires { D.extent disk.old ≡ 0 }
{
    disk.write_at(0, b"abcdef")?;
    disk.cut(4)?;
    disk.write_at(2, b"xyz")?;
    disk.sync()?;
    let mut octets = [0; 5];
    disk.read_at(0, &mut octets)?;
    Ok(octets)
}

fn from_the_third<D: Disk>(disk: &mut D) -> Result<[u8; 3], Failed> {
    let mut octets = [0; 3];
    if disk.size() < 5 {
        return Err(Failed);
    }
    disk.read_at(2, &mut octets)?;
    Ok(octets)
}

// What is read of a new file that was written and cut, and its size.
fn fill(files: &HostRuntime, path: &str) -> IoResult<(Result<[u8; 5], Failed>, u64)> {
    let mut disk = FileDisk::create(files, path)?;
    let read = if disk.size() == 0 {
        write_and_cut(&mut disk)
    } else {
        Err(Failed)
    };
    Ok((read, disk.size()))
}

// What is read of a file from its third octet on, its size, and how often that failed.
fn read_again(files: &HostRuntime, path: &str) -> IoResult<(Result<[u8; 3], Failed>, u64, u64)> {
    let mut disk = FileDisk::create(files, path)?;
    let read = from_the_third(&mut disk);
    Ok((read, disk.size(), disk.faults()))
}

// A file that is there is taken as it is.
#[test]
fn a_disk_over_a_file_keeps_what_is_written_and_cut(rt: HostRuntime) -> Result<(), Fail> {
    for path in PATHS {
        let filled = fill(&rt, path)?;
        let found = fs::read(&rt, path)?;
        let again = read_again(&rt, path)?;
        fs::remove_file(&rt, path)?;
        assert_eq!(rt; filled, (Ok(*b"abxyz"), 5));
        assert_eq!(rt; found.as_slice(), b"abxyz".as_slice());
        assert_eq!(rt; again, (Ok(*b"xyz"), 5, 0));
    }
    Ok(())
}

// What is read of a file that ended early since it was opened, and how often that failed.
fn read_of_a_cut_file(files: &HostRuntime, path: &str) -> IoResult<(Result<[u8; 3], Failed>, u64)> {
    fs::write(files, path, b"abcdef")?;
    let mut disk = FileDisk::open(files, path)?;
    fs::write(files, path, b"abc")?;
    let read = from_the_third(&mut disk);
    Ok((read, disk.faults()))
}

#[test]
fn a_file_that_is_cut_from_outside_is_at_fault(rt: HostRuntime) -> Result<(), Fail> {
    let path = "a_file_that_is_cut";
    let read = read_of_a_cut_file(&rt, path)?;
    fs::remove_file(&rt, path)?;
    assert_eq!(rt; read, (Err(Failed), 1));
    Ok(())
}

// Why no disk is had.
fn refusal(disk: IoResult<FileDisk>) -> Option<ErrorKind> {
    disk.err().map(|fault| fault.kind())
}

#[test]
fn a_file_is_open_once_at_a_time(rt: HostRuntime) -> Result<(), Fail> {
    let path = "a_file_that_is_locked";
    assert_eq!(rt;
        refusal(FileDisk::open(&rt, path)),
        Some(ErrorKind::NotFound)
    );
    let first = FileDisk::create(&rt, path)?;
    let opened = refusal(FileDisk::open(&rt, path));
    let created = refusal(FileDisk::create(&rt, path));
    drop(first);
    let second = refusal(FileDisk::open(&rt, path));
    fs::remove_file(&rt, path)?;
    assert_eq!(rt; opened, Some(ErrorKind::WouldBlock));
    assert_eq!(rt; created, Some(ErrorKind::WouldBlock));
    assert_eq!(rt; second, None);
    Ok(())
}

// A file that the system can't sync.
#[test]
fn a_failed_sync_is_not_forgotten(rt: HostRuntime) -> Result<(), Fail> {
    let mut disk = FileDisk::open(&rt, "/proc/self/coredump_filter")?;
    assert_eq!(rt; disk.sync(), Err(Failed));
    assert_eq!(rt; disk.sync(), Err(Failed));
    assert_eq!(rt; disk.faults(), 2);
    Ok(())
}
