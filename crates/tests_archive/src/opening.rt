// The archive of a file that was written out by hand from its form.

use disk_model::MemoryDisk;
use frame_archive::open_archive;
use record_form::Entry;
use sle_numbers::ReturnProductionStatus;
use std::test::Fail;

// One change of the production status: 2 octets, in a batch of its own.
const FILE: &[u8] = b"SLEA\x00\x00\x00\x01\xa5\x00\x00\x00\x02\x00\x01\x03\x01\x00";

#[test]
fn an_archive_counts_what_its_file_holds_and_what_waits(rt: HostRuntime) -> Result<(), Fail> {
    let disk = MemoryDisk::holding(rt.alloc(), FILE)?;
    let Ok((mut archive, _)) = open_archive(rt.alloc(), disk, 100) else {
        return Err(Fail::from("refused"));
    };
    assert!(rt;
        archive
            .offer(Entry::Production {
                status: ReturnProductionStatus::Interrupted
            })
            .is_ok()
    );
    let counts = (archive.count(), archive.used(), archive.waiting());
    assert_eq!(rt; counts, (1, 18, 1));
    Ok(())
}
