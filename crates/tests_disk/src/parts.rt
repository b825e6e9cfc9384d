// A disk over a file that moves its octets in parts, is interrupted and has little room.
ghost use Rattle.std.specs.Prelude.{◌≤◌};

use crate::PartFile;
use disk_model::{Disk, DiskOver};
use octet_core::Failed;
use std::test::Fail;

// Ten octets that are written and read again.
fn write_and_read<D: Disk>(disk: &mut D) -> Result<[u8; 10], Failed> {
    disk.write_at(0, b"0123456789")?;
    disk.sync()?;
    let mut octets = [0; 10];
    disk.read_at(0, &mut octets)?;
    Ok(octets)
}

// More octets than there is room for.
fn overfill<D: Disk>(disk: &mut D) -> Result<(), Failed> {
    if disk.size() < 10 {
        return Ok(());
    }
    disk.write_at(10, b"abcdefghij")
}

#[test]
fn a_write_in_parts_is_whole_or_fails(rt: HostRuntime) -> Result<(), Fail> {
    let mut disk = DiskOver::<PartFile>::create(&rt, "made")?;
    assert_eq!(rt; write_and_read(&mut disk), Ok(*b"0123456789"));
    assert_eq!(rt; (disk.size(), disk.faults()), (10, 0));
    assert_eq!(rt; overfill(&mut disk), Err(Failed));
    assert_eq!(rt; (disk.size(), disk.faults()), (16, 1));
    Ok(())
}

#[test]
fn a_file_that_is_opened_is_read_in_parts(rt: HostRuntime) -> Result<(), Fail> {
    let mut disk = DiskOver::<PartFile>::open(&rt, "abcdefghij")?;
    let mut octets = [0; 10];
    if disk.size() == 10 {
        disk.read_at(0, &mut octets)?;
    }
    assert_eq!(rt; &octets, b"abcdefghij");
    Ok(())
}
