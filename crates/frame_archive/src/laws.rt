// Laws of an archive over any list of its calls, each the contract of an empty function: a caller
// has the law by the call.
ghost use Rattle.std.specs.Prelude.{◌≡◌, ℕ, List};
ghost use Rattle.archive_terms.specs.Archive.{Entry};
ghost use Rattle.disk_model.specs.Moments.{IsImageOf};
ghost use Rattle.gate_journal.specs.File.{StandsFor};
ghost use Rattle.gate_journal.specs.JournalState.{IsOldOrNew};
ghost use Rattle.frame_archive.specs.State.{ArchiveState};
ghost use Rattle.frame_archive.specs.Acknowledges.{Acknowledges};
ghost use Rattle.frame_archive.specs.Run.{Course, Run, IsOf, with_unsettled};

use disk_model::Disk;

/// Over any list of offers, stores, failures and reopens since a file was opened, what each image
/// of the disk stands for, and so what a recovery finds, begins with all that was acknowledged. It
/// is what the file was opened with, followed by a prefix of what was given to stores since then,
/// without those named lost. It is so too at each moment of a store, with what that store was
/// given.
pub fn what_a_recovery_finds<D: Disk>()
    ensures at_rest { (archive : ArchiveState D) (course : Course) (image : List ℕ)
        (entries : List Entry) → Run D.pending archive course
        → IsImageOf (D.pending archive.disk) image → StandsFor entries image
        → IsOf course entries }
    ensures in_a_store { (archive : ArchiveState D) (course : Course) (image : List ℕ)
        (entries : List Entry) → Run D.pending archive course
        → ((stored : List Entry) → Acknowledges D.pending archive stored
        → IsOldOrNew stored archive.waiting image) → StandsFor entries image
        → IsOf (with_unsettled course archive.waiting) entries }
{
    gate_journal::laws::a_file_stands_for_one_list();
}

/// An archive acknowledges one list of entries at most.
pub fn an_archive_acknowledges_one_list<D: Disk>()
    ensures { (archive : ArchiveState D) (one other : List Entry)
        → Acknowledges D.pending archive one → Acknowledges D.pending archive other → one ≡ other }
{
    disk_model::laws::images_at_a_moment::<D>();
    gate_journal::laws::a_file_stands_for_one_list();
}
