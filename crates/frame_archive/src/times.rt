// The last times of entries.
ghost use Rattle.std.specs.Prelude.{◌≡◌};
ghost use Rattle.record_form.specs.Entry.{entries_of};
ghost use Rattle.frame_archive.specs.State.{times_of};

use gate_journal::Times;
use record_form::Entry;

// The last frame's time and the last seal's, where there are such.
pub fn times_of(entries: &[Entry]) -> Times
    ensures { result ≡ times_of (entries_of entries.now) }
{
    let mut times = Times::NONE;
    for entry in entries {
        times = times.after(entry);
    }
    times
}
