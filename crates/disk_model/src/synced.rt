// A write that is synced before any call follows it.
ghost use Rattle.std.specs.Prelude.{◌≡◌, ◌+◌, ◌≤◌, max, [], ◌∷◌, length, option_map, is_some, OnOk};
ghost use Rattle.octet_core.specs.Fault.{FailsOnlyByFault};
ghost use Rattle.disk_model.specs.Images.{with_range, written_and_synced};
ghost use Rattle.disk_model.specs.Moments.{IsImageOf, HoldsThroughout};
ghost use Rattle.disk_model.specs.Calls.{RunsCalls};
ghost use Rattle.disk_model.specs.declared.call.Call.TheVariants.{Write, Sync};

use crate::{Disk, laws};
use octet_core::Failed;

/// Writes octets and syncs them, in two counted calls. At every moment, also where one fails, each
/// image is one from before, but for the range, which is free.
pub fn write_synced<D: Disk>(disk: &mut D, place: u64, octets: &[u8]) -> Result<(), Failed>
    requires { place ≤ D.extent disk.old }
    ensures written { OnOk result (D.pending disk.new ≡ option_map
        (written_and_synced place octets.now) (D.pending disk.old)) }
    ensures size { OnOk result (D.extent disk.new ≡ max (D.extent disk.old)
        (place + length octets.now)) }
    ensures any_moment { HoldsThroughout D.moment D.images_since disk.old disk.new (IsImageOf
        (option_map (with_range place (length octets.now) []) (D.pending disk.old))) }
    ensures tells { is_some (D.pending disk.new) ≡ is_some (D.pending disk.old) }
    ensures calls { RunsCalls D.makes D.fails disk.old (Write place octets.now ∷ Sync ∷ []) disk.new
        result }
    ensures cause { FailsOnlyByFault (D.faults disk.old) (D.faults disk.new) result }
{
    laws::a_write_frees_its_range();
    laws::a_sync_leaves_one_image();
    laws::images_at_a_moment::<D>();
    disk.write_at(place, octets)?;
    disk.sync()
}
