// The calls of an archive on any disk that tells, each with the events of the world that it is.
ghost use Rattle.std.specs.Prelude.{◌≡◌, ◌≤◌, ◌-◌, ◌⊎◌, false, true, List, [], ◌∷◌, length, Some};
ghost use Rattle.std.specs.Prelude.{None, IsSomeAnd, IsTrue, OnOk, OnErr, IfOk, IfErr, IsErrOf};
ghost use Rattle.archive_terms.specs.Archive.{is_valid};
ghost use Rattle.disk_model.specs.Moments.{HoldsThroughout};
ghost use Rattle.disk_model.specs.Calls.{AllMade, FailedAtOne};
ghost use Rattle.record_form.specs.Entry.{entry_of};
ghost use Rattle.gate_journal.specs.JournalState.{appending, recovering, FailsToRecover};
ghost use Rattle.frame_archive.specs.State.{at_rest};
ghost use Rattle.frame_archive.specs.declared.fault.ArchiveFault.TheVariants as ArchiveFault;
ghost use Rattle.station_book.specs.State.{Opening};
ghost use Rattle.station_world.specs.File.{File, in_a_store, Finding, refused, found_by};
ghost use Rattle.station_world.specs.World.{World, offers, begins_store, ends_store, reopens};
ghost use Rattle.station_world.specs.World.{restarts, after_events};
ghost use Rattle.station_world.specs.Comes.{AllCome};
ghost use Rattle.station_world.specs.Archives.{Holds, StandsForOne, AreEvents};

use crate::laws::archive_calls_are_events;
use disk_model::Disk;
use frame_archive::{ArchiveFault, FrameArchive, Landing, OfferFault, Stored, open_archive};
use record_form::{Entries, Entry};
use std::alloc::Global;

/// Offers an entry. Where it is taken, that is the event of its offer; a refusal is none.
pub fn offer<D: Disk>(
    archive: &mut FrameArchive<D>,
    entry: Entry,
) -> Result<(), (OfferFault, Entry)>
    requires { IsTrue (is_valid (entry_of entry)) }
    ensures taken { OnOk result (AreEvents D.pending archive.old archive.new
        (offers (entry_of entry) ∷ [])) }
    ensures nothing { OnErr result (archive.new ≡ archive.old) }
{
    archive_calls_are_events::<D>();
    archive.offer(entry)
}

/// Stores what waits: the begin of a store and its end, good where the answer is Ok, failed where
/// it is `DiskFault`; a store that wants memory is no event. At every moment of it, where a power
/// failure may cut it off, each image of the disk stands for one of the file's two lists.
pub fn store<D: Disk>(archive: &mut FrameArchive<D>) -> Result<Stored, ArchiveFault>
    ensures stored { OnOk result (AreEvents D.pending archive.old archive.new
        (begins_store ∷ ends_store true ∷ [])) }
    ensures failed { IsErrOf result ArchiveFault.DiskFault → AreEvents D.pending archive.old
        archive.new (begins_store ∷ ends_store false ∷ []) }
    ensures nothing { IsErrOf result ArchiveFault.Memory → archive.new ≡ archive.old }
    ensures any_moment { archive.old.is_stale ≡ false → (f : File)
        → Holds D.pending archive.old f → HoldsThroughout D.moment D.images_since archive.old.disk
        archive.new.disk (StandsForOne (in_a_store f)) }
    ensures calls { OnOk result (1 ≤ length archive.old.waiting → AllMade D.makes archive.old.disk
        (appending (archive.old.used - 1) archive.old.waiting) archive.new.disk) }
    ensures failed_calls { IsErrOf result ArchiveFault.DiskFault → FailedAtOne D.makes D.fails
        archive.old.disk (appending (archive.old.used - 1) archive.old.waiting) archive.new.disk }
{
    archive_calls_are_events::<D>();
    archive.store()
}

/// Opens the file again: a reopen that finds the batch of the store that was broken off or doesn't,
/// or that is refused. At every moment of it each image stands for one of the file's lists.
pub fn reopen<D: Disk>(archive: &mut FrameArchive<D>) -> Result<Landing, ArchiveFault>
    ensures reopened { OnOk result ((finding : Finding)
        × AreEvents D.pending archive.old archive.new (reopens finding ∷ [])) }
    ensures refused { OnErr result (AreEvents D.pending archive.old archive.new
        (reopens refused ∷ [])) }
    ensures any_moment { (f : File) → Holds D.pending archive.old f
        → HoldsThroughout D.moment D.images_since archive.old.disk archive.new.disk
        (StandsForOne f) }
    ensures calls { OnOk result (AllMade D.makes archive.old.disk recovering archive.new.disk) }
    ensures refused_calls { OnErr result (IsErrOf result ArchiveFault.DiskFault
        ⊎ AllMade D.makes archive.old.disk recovering archive.new.disk) }
    ensures failed_calls { IsErrOf result ArchiveFault.DiskFault → FailsToRecover D.makes D.fails
        D.fails_to_read archive.old.disk archive.new.disk }
{
    archive_calls_are_events::<D>();
    archive.reopen()
}

/// Opens the archive behind a power failure, on a disk whose content stands for one of the file's
/// lists: a restart that finds just the entries that it gives. Nothing waits in the archive, which
/// has the capacity that was asked for.
pub fn open<D: Disk>(
    alloc: Global,
    disk: D,
    capacity: u64,
) -> Result<(FrameArchive<D>, Entries), (ArchiveFault, D)>
    requires { capacity ≤ 268435456 }
    ensures at_rest { IfOk result (λ opened. opened.0 ≡ at_rest opened.0.disk capacity opened.0.used
        opened.1) }
    ensures restarted { IfOk result (λ opened. (o : Opening) (w : World) → w.now ≡ None
        → IsSomeAnd (D.pending disk) (λ told. StandsForOne w.file told.content)
        → (finding : Finding) × (found_by w.file finding ≡ Some opened.1)
        × AllCome w (restarts o finding ∷ [])
        × Holds D.pending opened.0 (after_events w (restarts o finding ∷ [])).file) }
    ensures calls { IfOk result (λ opened. AllMade D.makes disk recovering opened.0.disk) }
    ensures refused_calls { IfErr result (λ refused. (refused.0 ≡ ArchiveFault.DiskFault)
        ⊎ AllMade D.makes disk recovering refused.1) }
    ensures failed_calls { IfErr result (λ refused. refused.0 ≡ ArchiveFault.DiskFault
        → FailsToRecover D.makes D.fails D.fails_to_read disk refused.1) }
{
    archive_calls_are_events::<D>();
    open_archive(alloc, disk, capacity)
}
