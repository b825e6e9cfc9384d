// A file as the system has it: its calls, and what each says.
ghost use Rattle.std.specs.Prelude.{◌≡◌, ◌≤◌, List, ℕ, Option, true, false, length, option_map};
ghost use Rattle.std.specs.Prelude.{IfSome, IfOk, OnOk, OnErr};
ghost use Rattle.disk_model.specs.Images.{Pending, IsCoherent, after_cut, after_sync};
ghost use Rattle.disk_model.specs.Moments.{IsImageOf, Becomes, Elapses};
ghost use Rattle.disk_model.specs.RawFile.{Asked, just_opened, with_lock, with_name_synced};
ghost use Rattle.disk_model.specs.RawFile.{IsSizeOf, HasAtLeast, IsInLastWrite, IfInterrupted};
ghost use Rattle.disk_model.specs.RawFile.{ReadsFront, after_first_piece, after_further_piece};
ghost use Rattle.disk_model.specs.RawFile.{FailsToBegin, FailsToGoOn};

use std::io;

/// A file that is open for reading and writing.
///
/// It may tell what is pending on it, as a `Disk` does, and always tells what was asked of the
/// system to have it. One call may move a part of the octets alone. Want of memory is an error of
/// the kind `OutOfMemory`. Reads and writes that are interrupted answer so, and leave all as it
/// was; the other calls take themselves again.
pub trait RawFile: Drop {
    /// What is pending since the last good sync, or none where the file doesn't tell.
    ghost pending: { Self → Option Pending };

    /// The moment, as a number that doesn't fall.
    ghost moment: { Self → ℕ };

    /// The images at some moment from that one on, during a call or between two.
    ghost images_since: { Self → ℕ → List ℕ → Type 0 };

    /// What was asked of the system to have it.
    ghost asked: { Self → Asked };

    /// Opens the file at exactly this path.
    fn open(files: &HostRuntime, path: &str) -> io::Result<Self>
        ensures { IfOk result (λ file. asked file ≡ just_opened path.now false (pending file)) };

    /// Opens the file at exactly this path, and makes an empty one where there is none.
    fn make(files: &HostRuntime, path: &str) -> io::Result<Self>
        ensures { IfOk result (λ file. asked file ≡ just_opened path.now true (pending file)) };

    /// Locks it. It is an error of the kind `WouldBlock` where another open of it has the lock.
    fn lock(&mut self) -> io::Result<()>
        ensures asked { OnOk result (asked self.new ≡ with_lock (asked self.old)) }
        ensures pending { pending self.new ≡ pending self.old };

    /// Syncs the folder that its name stands in.
    fn sync_name(&mut self, files: &HostRuntime) -> io::Result<()>
        ensures asked { OnOk result (asked self.new ≡ with_name_synced (asked self.old)) }
        ensures pending { pending self.new ≡ pending self.old };

    /// How many octets it holds.
    fn length(&self) -> io::Result<u64>
        ensures { IfOk result (λ size. IsSizeOf (pending self.now) size) };

    /// Reads octets from `place` on into the front of `into`, and tells how many. There are none at
    /// the file's end.
    fn read(&self, place: u64, into: &mut [u8]) -> io::Result<usize>
        ensures bound { IfOk result (λ n. n ≤ length into.new) }
        ensures octets { IfOk result (λ n. ReadsFront (pending self.now) place n into.new) };

    /// Begins a write, and tells how many of the octets are there. The range of all of them is
    /// pending.
    fn write(&mut self, place: u64, octets: &[u8]) -> io::Result<usize>
        requires { HasAtLeast (pending self.old) place }
        ensures bound { IfOk result (λ n. n ≤ length octets.now) }
        ensures written { IfOk result (λ n. pending self.new
            ≡ option_map (after_first_piece place octets.now n) (pending self.old)) }
        ensures torn { OnErr result (Becomes (FailsToBegin place (length octets.now))
            (pending self.old) (pending self.new)) }
        ensures interrupted { IfInterrupted result (self.new ≡ self.old) }
        ensures time { Elapses (moment self.old) (moment self.new) (images_since self.old)
            (images_since self.new) (pending self.new) }
        ensures asked { asked self.new ≡ asked self.old };

    /// Goes on with the last write, in whose range the octets lie, and tells how many are there.
    fn write_on(&mut self, place: u64, octets: &[u8]) -> io::Result<usize>
        requires range { IsInLastWrite (pending self.old) place (length octets.now) }
        requires place { HasAtLeast (pending self.old) place }
        ensures bound { IfOk result (λ n. n ≤ length octets.now) }
        ensures written { IfOk result (λ n. pending self.new
            ≡ option_map (after_further_piece place octets.now n) (pending self.old)) }
        ensures torn { OnErr result (Becomes (FailsToGoOn place (length octets.now))
            (pending self.old) (pending self.new)) }
        ensures interrupted { IfInterrupted result (self.new ≡ self.old) }
        ensures time { Elapses (moment self.old) (moment self.new) (images_since self.old)
            (images_since self.new) (pending self.new) }
        ensures asked { asked self.new ≡ asked self.old };

    /// Cuts it to this many octets. A cut that fails leaves all as it was.
    fn cut(&mut self, size: u64) -> io::Result<()>
        requires { HasAtLeast (pending self.old) size }
        ensures cut { OnOk result (pending self.new ≡ option_map (after_cut size)
            (pending self.old)) }
        ensures kept { OnErr result (pending self.new ≡ pending self.old) }
        ensures time { Elapses (moment self.old) (moment self.new) (images_since self.old)
            (images_since self.new) (pending self.new) }
        ensures asked { asked self.new ≡ asked self.old };

    /// Makes all that was written and cut last.
    fn sync(&mut self) -> io::Result<()>
        ensures synced { OnOk result (pending self.new ≡ option_map after_sync (pending self.old)) }
        ensures unsynced { OnErr result (pending self.new ≡ pending self.old) }
        ensures time { Elapses (moment self.old) (moment self.new) (images_since self.old)
            (images_since self.new) (pending self.new) }
        ensures asked { asked self.new ≡ asked self.old };

    /// What a read gives is an image.
    ghost read_is_image: { (file : Self) → IfSome (pending file) IsCoherent };

    /// This moment is one of those since an earlier one.
    ghost counts_now: { (file : Self) (since : ℕ) (image : List ℕ) → since ≤ moment file
        → IsImageOf (pending file) image → images_since file since image };

    /// Since this moment there are no other images than the present ones.
    ghost only_now: { (file : Self) (image : List ℕ) → images_since file (moment file) image
        → IsImageOf (pending file) image };
}
