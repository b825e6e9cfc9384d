// What holds of any run of an archive's calls, as the contract of a function that does nothing: a
// caller has the law by the call.
ghost use Rattle.archive_laws.specs.Stores.{StoresAreComplete};

use disk_model::Disk;

/// After a good recovery, and with no store that answered DiskFault and no refused recovery since, a
/// store during which the disk's count of faults doesn't rise is Ok, or wants memory. Without them a
/// store is stale.
pub fn stores_are_complete<D: Disk>()
    ensures { StoresAreComplete D.faults }
{}
