// The line of an entry, put behind others.
ghost use Rattle.std.specs.Prelude.{◌≡◌, ◌++◌, IsTrue, OnOk};
ghost use Rattle.archive_terms.specs.Archive.{is_storable};
ghost use Rattle.record_form.specs.Entry.{entry_of};
ghost use Rattle.record_form.specs.Lent.{lent_entry};
ghost use Rattle.record_form.specs.declared.entry.Entry.TheVariants.{Frame};
ghost use Rattle.drill_text.specs.Reading.{entry_text};
ghost use Rattle.archive_commands.specs.Archives.{offered};

use cds_time::Cds;
use drill_text::write_entry_line;
use octet_core::{Memory, Octets};
use record_form::{Entry, EntryRef, laws};
use sle_numbers::FrameQuality;
use std::alloc::{AllocError, Global};
use words::{Last, LentOctets, Number, NumberOf, Then, Time, WriteWords};

/// Appends the line of a script that offers an entry, and its end. A frame's is put together where
/// it comes to stand.
pub fn append_entry_line(
    alloc: Global,
    entry: EntryRef<'_>,
    into: &mut Vec<u8>,
) -> Result<(), AllocError>
    requires { IsTrue (is_storable (lent_entry entry)) }
    ensures { OnOk result (into.new.items
        ≡ into.old.items ++ entry_text (offered (lent_entry entry.entry))) }
{
    match entry {
        EntryRef::Frame {
            ert,
            quality,
            antenna,
            lost,
            octets,
        } => append_frame(ert, quality, antenna, lost, octets, into),
        _ => append_other(alloc, entry, into),
    }
}

// Appends the line as it is written by itself.
fn append_other(alloc: Global, entry: EntryRef<'_>, into: &mut Vec<u8>) -> Result<(), AllocError>
    requires { IsTrue (is_storable (lent_entry entry)) }
    ensures { OnOk result (into.new.items
        ≡ into.old.items ++ entry_text (offered (lent_entry entry.entry))) }
{
    let entry = entry.to_entry(alloc)?;
    let mut line = Octets::new(alloc);
    match write_entry_line(alloc, &entry, &mut line) {
        Ok(()) => into.extend_from_slice(line.as_slice()),
        Err(Memory) => Err(AllocError),
    }
}

// Words of a frame's line.
type TimeAndQuality = Then<Time, Last<NumberOf<FrameQuality>>>;

type Lost = Last<Number<0, 16_777_215>>;

// Appends the line of a frame.
fn append_frame(
    ert: Cds,
    quality: FrameQuality,
    antenna: &[u8],
    gap: u32,
    octets: &[u8],
    into: &mut Vec<u8>,
) -> Result<(), AllocError>
    requires { IsTrue (is_storable (entry_of (Frame ert quality antenna.now gap octets.now))) }
    ensures { OnOk result (into.new.items ≡ into.old.items
        ++ entry_text (Frame ert quality antenna.now gap octets.now)) }
{
    laws::slice(antenna);
    into.extend_from_slice(b"frame")?;
    TimeAndQuality::put(b' ', (&ert, &quality), into)?;
    LentOctets::put(b' ', antenna, into)?;
    Lost::put(b' ', &gap, into)?;
    into.push(b' ')?;
    hex_text::append(octets, into)?;
    into.push(b'\n')?;
    Ok(())
}
