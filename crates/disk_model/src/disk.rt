// A disk: its calls, and what each says of the images at every moment.
ghost use Rattle.std.specs.Prelude.{◌≡◌, ◌+◌, ◌≤◌, max, List, ℕ, Option, length, option_map};
ghost use Rattle.std.specs.Prelude.{IfSome, OnOk, OnErr};
ghost use Rattle.octet_core.specs.Fault.{FailsOnlyByFault};
ghost use Rattle.disk_model.specs.Images.{Pending, IsCoherent, FailsToWrite, FailsToCut};
ghost use Rattle.disk_model.specs.Images.{after_write, after_cut, after_sync};
ghost use Rattle.disk_model.specs.Moments.{IsImageOf, Becomes, Reads, Elapses};
ghost use Rattle.disk_model.specs.declared.call.Call.{Call};
ghost use Rattle.disk_model.specs.declared.call.Call.TheVariants.{Write, Cut, Sync};

use octet_core::Failed;

/// A disk that holds one list of octets.
///
/// What stands on it after a crash is one of its images. Each call says which images there may be
/// at every moment since it began, whether it succeeds or fails.
pub trait Disk: Send + Drop {
    /// What is pending since the last good sync, or none where the disk doesn't tell.
    ghost pending: { Self → Option Pending };

    /// How many octets the disk holds.
    ghost extent: { Self → ℕ };

    /// The moment, as a number that doesn't fall.
    ghost moment: { Self → ℕ };

    /// The images at some moment from that one on, during a call or between two.
    ghost images_since: { Self → ℕ → List ℕ → Type 0 };

    /// How often the disk has failed. The count never falls, and stands still at the last `u64`.
    ghost faults: { Self → ℕ };

    /// What the disk tells besides of a counted call that succeeded. `AllMade` of
    /// `specs/Calls.antt` says it of several, one after another.
    ghost makes: { Self → Call → Self → Type 0 };

    /// What the disk tells besides of a counted call that failed.
    ghost fails: { Self → Call → Self → Type 0 };

    /// What the disk tells besides of a read that failed.
    ghost fails_to_read: { Self → Self → Type 0 };

    /// How many octets the disk holds.
    fn size(&self) -> u64
        ensures { result ≡ extent self.now };

    /// Reads the octets from `place` on, as many as `into` has, and leaves the disk as it is. After
    /// `Failed` what `into` holds is free.
    fn read_at(&mut self, place: u64, into: &mut [u8]) -> Result<(), Failed>
        requires { place + length into.old ≤ extent self.old }
        ensures octets { OnOk result (Reads (pending self.old) place into.new) }
        ensures same { OnOk result (self.new ≡ self.old) }
        ensures failed { OnErr result (fails_to_read self.old self.new) }
        ensures pending { pending self.new ≡ pending self.old }
        ensures size { extent self.new ≡ extent self.old }
        ensures time { Elapses (moment self.old) (moment self.new) (images_since self.old)
            (images_since self.new) (pending self.new) }
        ensures cause { FailsOnlyByFault (faults self.old) (faults self.new) result };

    /// Writes over what is there, and past the end. Until a good sync the range is pending.
    fn write_at(&mut self, place: u64, octets: &[u8]) -> Result<(), Failed>
        requires { place ≤ extent self.old }
        ensures written { OnOk result (pending self.new ≡ option_map (after_write place octets.now)
            (pending self.old)) }
        ensures torn { OnErr result (Becomes (FailsToWrite place (length octets.now))
            (pending self.old) (pending self.new)) }
        ensures size { OnOk result (extent self.new ≡ max (extent self.old)
            (place + length octets.now)) }
        ensures size_kept { OnErr result (extent self.old ≤ extent self.new) }
        ensures size_bound { OnErr result (extent self.new ≤ max (extent self.old)
            (place + length octets.now)) }
        ensures time { Elapses (moment self.old) (moment self.new) (images_since self.old)
            (images_since self.new) (pending self.new) }
        ensures made { OnOk result (makes self.old (Write place octets.now) self.new) }
        ensures failed { OnErr result (fails self.old (Write place octets.now) self.new) }
        ensures cause { FailsOnlyByFault (faults self.old) (faults self.new) result };

    /// Cuts the disk to this many octets. Until a good sync the cut is pending.
    fn cut(&mut self, size: u64) -> Result<(), Failed>
        requires { size ≤ extent self.old }
        ensures cut { OnOk result (pending self.new ≡ option_map (after_cut size)
            (pending self.old)) }
        ensures cut_short { OnErr result (Becomes (FailsToCut size) (pending self.old)
            (pending self.new)) }
        ensures size { OnOk result (extent self.new ≡ size) }
        ensures size_kept { OnErr result (size ≤ extent self.new) }
        ensures size_bound { OnErr result (extent self.new ≤ extent self.old) }
        ensures time { Elapses (moment self.old) (moment self.new) (images_since self.old)
            (images_since self.new) (pending self.new) }
        ensures made { OnOk result (makes self.old (Cut size) self.new) }
        ensures failed { OnErr result (fails self.old (Cut size) self.new) }
        ensures cause { FailsOnlyByFault (faults self.old) (faults self.new) result };

    /// Makes all that was written and cut last. After it what a read gives is the only image.
    fn sync(&mut self) -> Result<(), Failed>
        ensures synced { OnOk result (pending self.new ≡ option_map after_sync (pending self.old)) }
        ensures unsynced { OnErr result (pending self.new ≡ pending self.old) }
        ensures size { extent self.new ≡ extent self.old }
        ensures time { Elapses (moment self.old) (moment self.new) (images_since self.old)
            (images_since self.new) (pending self.new) }
        ensures made { OnOk result (makes self.old Sync self.new) }
        ensures failed { OnErr result (fails self.old Sync self.new) }
        ensures cause { FailsOnlyByFault (faults self.old) (faults self.new) result };

    /// What a read gives is an image.
    ghost read_is_image: { (disk : Self) → IfSome (pending disk) IsCoherent };

    /// The size is the length of what a read gives.
    ghost size_is_read: { (disk : Self) → IfSome (pending disk)
        (λ told. extent disk ≡ length told.content) };

    /// This moment is one of those since an earlier one.
    ghost counts_now: { (disk : Self) (since : ℕ) (image : List ℕ) → since ≤ moment disk
        → IsImageOf (pending disk) image → images_since disk since image };

    /// Since this moment there are no other images than the present ones.
    ghost only_now: { (disk : Self) (image : List ℕ) → images_since disk (moment disk) image
        → IsImageOf (pending disk) image };
}
