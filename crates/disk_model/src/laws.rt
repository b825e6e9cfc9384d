// Laws of the images of a disk, and of the calls of a disk in memory: what the definitions of
// specs/Images.antt and specs/MemoryDisk.antt mean.
//
// Each is the contract of a function with no body: a crate above uses a law by calling it.
ghost use Rattle.std.specs.Prelude.{◌≡◌, ◌≤◌, ◌<◌, ◌+◌, ◌-◌, ◌⊎◌, ℕ, true, false, Some, None};
ghost use Rattle.std.specs.Prelude.{IfSome, List, [], ◌∷◌, length, min, take, IsFalse};
ghost use Rattle.octet_core.specs.Fault.{last_count};
ghost use Rattle.disk_model.specs.Images.{Pending, IsImage, IsCoherent, IsTorn, IsCutShort};
ghost use Rattle.disk_model.specs.Images.{FailsToWrite, FailsToCut, all_synced, after_write};
ghost use Rattle.disk_model.specs.Images.{after_cut, after_sync, with_range, with_cut};
ghost use Rattle.disk_model.specs.Moments.{IsImageOf};
ghost use Rattle.disk_model.specs.Calls.{AllMade, FailedAtOne, OnlyCalls};
ghost use Rattle.disk_model.specs.MemoryDisk.{DiskState, pending_of, medium_of, synced_medium};
ghost use Rattle.disk_model.specs.MemoryDisk.{left_by, IsMadeCall, IsFailedCall, run_as_ordered};
ghost use Rattle.disk_model.specs.MemoryDisk.{RunIs, calls_until_stop};
ghost use Rattle.disk_model.specs.declared.call.Call.{Call};
ghost use Rattle.disk_model.specs.declared.orders.Pick.{Pick};
ghost use Rattle.disk_model.specs.declared.orders.Stop.{Stop};

use crate::Disk;

/// What a read gives is an image, whatever calls were made.
pub fn a_read_gives_an_image()
    ensures synced { (octets : List ℕ) → IsCoherent (all_synced octets) }
    ensures written { (pending : Pending) (place : ℕ) (octets : List ℕ) → IsCoherent pending
        → IsCoherent (after_write place octets pending) }
    ensures cut { (pending : Pending) (size : ℕ) → IsCoherent pending
        → IsCoherent (after_cut size pending) }
    ensures torn { (old new : Pending) (place count : ℕ) → IsCoherent old
        → FailsToWrite place count old new → IsCoherent new }
    ensures cut_short { (old new : Pending) (size : ℕ) → IsCoherent old
        → FailsToCut size old new → IsCoherent new }
{}

/// After a good sync what a read gives is the only image.
pub fn a_sync_leaves_one_image()
    ensures { (pending : Pending) (image : List ℕ) → IsImage (after_sync pending) image
        → image ≡ pending.content }
{}

/// After a write, whole or torn, each image is an old one with free octets in the range and past
/// its end, and is no longer than the range reaches. Each old one is still an image.
pub fn a_write_frees_its_range()
    ensures new { (pending : Pending) (place count : ℕ) (content image : List ℕ)
        → IsCoherent pending
        → IsImage (with_range place count content pending) image
        → (old : List ℕ) × IsImage pending old × IsTorn place count old image }
    ensures old { (pending : Pending) (place count : ℕ) (content image : List ℕ)
        → IsImage pending image → IsImage (with_range place count content pending) image }
{}

/// After a cut each image agrees with an old one below the cut, is no longer than it, and is at
/// least as long as the lesser of the old least length and the cut. Each old one is still an image.
pub fn a_cut_frees_what_lies_past_it()
    ensures new { (pending : Pending) (size : ℕ) (content image : List ℕ) → IsCoherent pending
        → IsImage (with_cut size content pending) image
        → (old : List ℕ) × IsImage pending old × IsCutShort size old image
        × (min pending.least size ≤ length image) }
    ensures old { (pending : Pending) (size : ℕ) (content image : List ℕ)
        → IsImage pending image → IsImage (with_cut size content pending) image }
{}

/// What each disk says of its images at a moment, for callers that are generic in the disk.
pub fn images_at_a_moment<D: Disk>()
    ensures only_now { (disk : D) (image : List ℕ) → D.images_since disk (D.moment disk) image
        → IsImageOf (D.pending disk) image }
    ensures counts_now { (disk : D) (since : ℕ) (image : List ℕ) → since ≤ D.moment disk
        → IsImageOf (D.pending disk) image → D.images_since disk since image }
    ensures read { (disk : D) → IfSome (D.pending disk) IsCoherent }
    ensures size { (disk : D)
        → IfSome (D.pending disk) (λ told. D.extent disk ≡ length told.content) }
{}

/// What no call of a disk changes stays over any of its calls, one after another, also where one
/// fails. Of a disk over a file that is what was asked of the system to have it.
pub fn only_calls_join<D: Disk>()
    ensures none { (old new : D) → new ≡ old
        → OnlyCalls D.makes D.fails D.fails_to_read old new }
    ensures read { (old new : D) → D.fails_to_read old new
        → OnlyCalls D.makes D.fails D.fails_to_read old new }
    ensures made { (calls : List Call) (old new : D) → AllMade D.makes old calls new
        → OnlyCalls D.makes D.fails D.fails_to_read old new }
    ensures failed { (calls : List Call) (old new : D) → FailedAtOne D.makes D.fails old calls new
        → OnlyCalls D.makes D.fails D.fails_to_read old new }
    ensures both { (old mid new : D) → OnlyCalls D.makes D.fails D.fails_to_read old mid
        → OnlyCalls D.makes D.fails D.fails_to_read mid new
        → OnlyCalls D.makes D.fails D.fails_to_read old new }
{}

/// What a stop leaves of a disk in memory is one of its images, by any pick. Where all is synced it
/// is what a read gives.
pub fn a_stop_leaves_an_image()
    ensures image { (disk : DiskState) (pick : Pick)
        → IsImage (pending_of disk) (left_by pick (medium_of disk)) }
    ensures synced { (disk : DiskState) (octets : List ℕ) → pending_of disk ≡ all_synced octets
        → medium_of disk ≡ synced_medium octets }
{}

/// What the disk in memory tells of several calls, one after another, is a run by its orders,
/// unless it was refused memory.
pub fn a_run_is_as_ordered()
    ensures made { (old new : DiskState) (calls : List Call) → AllMade IsMadeCall old calls new
        → run_as_ordered old calls ≡ (true, new) }
    ensures failed { (old new : DiskState) (calls : List Call)
        → FailedAtOne IsMadeCall IsFailedCall old calls new → IsFalse new.memory_refused
        → run_as_ordered old calls ≡ (false, new) }
{}

/// A disk in memory without orders fails at no call.
pub fn a_run_without_orders_succeeds()
    ensures { (disk : DiskState) (calls : List Call) → disk.stopped ≡ None → disk.stop ≡ None
        → disk.calls.failing ≡ [] → RunIs disk calls true calls None }
{}

/// A stop at the K-th counted call: all earlier calls take effect, the K-th is left to the pick
/// unless it is a sync, and no further one is made.
pub fn a_stop_comes_at_its_call()
    ensures later { (disk : DiskState) (calls : List Call) (stop : Stop) → disk.stopped ≡ None
        → disk.stop ≡ Some stop → disk.calls.failing ≡ [] → length calls < stop.calls
        → RunIs disk calls true calls None }
    ensures now { (disk : DiskState) (calls : List Call) (stop : Stop) → disk.stopped ≡ None
        → disk.stop ≡ Some stop → disk.calls.failing ≡ [] → 0 < stop.calls
        → stop.calls ≤ length calls
        → RunIs disk calls false (calls_until_stop stop.calls calls) (Some stop.pick) }
{}

/// A counted call that is to fail, the K-th from now on: all earlier calls take effect, and it and
/// the further ones don't.
pub fn a_fault_comes_at_its_call()
    ensures { (disk : DiskState) (calls : List Call) (k : ℕ) → disk.stopped ≡ None
        → disk.stop ≡ None
        → disk.calls.failing ≡ (disk.calls.made + k) ∷ [] → disk.calls.made + k ≤ last_count
        → 0 < k → k ≤ length calls → RunIs disk calls false (take (k - 1) calls) None }
{}
