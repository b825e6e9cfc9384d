// What a rehearsal writes.
ghost use Rattle.std.specs.Prelude.{◌≡◌, ◌≤◌, ◌<◌, ◌^◌, ◌-◌, ◌++◌, IfOk, OnOk, List, length};
ghost use Rattle.std.specs.Prelude.{string_bytes};
ghost use Rattle.std.specs.Fmt.{decimal};
ghost use Rattle.hex.specs.Hex.{encode_lower};
ghost use Rattle.sha1.specs.Sha1.{sha1};
ghost use Rattle.archive_terms.specs.Archive.{IsArchive};
ghost use Rattle.station_desk.specs.ToldBuffer.{ToldBuffer};
ghost use Rattle.station_desk.specs.Start.{told_desk};
ghost use Rattle.rehearsal.specs.Frames.{time_at};
ghost use Rattle.rehearsal.specs.Counts.{Counts, frames_sent, buffers_sent, ends_sent};
ghost use Rattle.rehearsal.specs.Counts.{octets_sent};
ghost use Rattle.rehearsal.specs.Rehearsal.{text, line, lines};

use crate::archive::Archive;
use crate::frames::time;
use crate::start::count_start;
use crate::tally::Tally;
use archive_terms::laws::archive_grows;
use octet_core::Memory;
use sle_numbers::RequestedFrameQuality;
use std::alloc::{AllocError, Global};

/// The most frames of a rehearsal.
pub const MOST_FRAMES: u32 = 20_000;

/// The text of a rehearsal of `n` frames: how many frames were stored, how many of them a START
/// over all hands over, in how many buffers, with how many ends of data, and the SHA-1 of its
/// messages.
pub fn rehearse(alloc: Global, n: u32) -> Result<String, Memory>
    requires some { 1 ≤ n }
    requires few { n ≤ MOST_FRAMES }
    ensures { IfOk result (λ written. string_bytes written ≡ text n) }
{
    archive_grows();
    let archive = Archive::rehearsed(alloc, n)?;
    let tally = count_good(alloc, &archive, n)?;
    Ok(report(alloc, archive.frames(), tally)?)
}

// Counts what a START hands over of the good frames, from the first one's time to that of frame
// `n` - 1.
fn count_good(alloc: Global, archive: &Archive, n: u32) -> Result<Tally, Memory>
    requires archive { IsArchive archive.now }
    requires few { length archive.now < 2 ^ 32 }
    requires some { 1 ≤ n }
    requires few_frames { n ≤ 20000 }
    ensures { IfOk result (λ tally. Counts tally
        (told_desk archive.now (time_at 0) (time_at (n - 1)) 0)) }
{
    let good = RequestedFrameQuality::GoodFramesOnly;
    count_start(alloc, archive, &time(0), &time(n - 1), good)
}

// The lines of a tally.
fn report(alloc: Global, entries: usize, tally: Tally) -> Result<String, AllocError>
    ensures { IfOk result (λ written. (told : List ToldBuffer) → Counts tally told
        → string_bytes written ≡ lines entries (frames_sent told) (buffers_sent told)
        (ends_sent told) (sha1 (octets_sent told))) }
{
    let Tally {
        frames,
        buffers,
        ends,
        hasher,
    } = tally;
    write_lines(alloc, entries, frames, buffers, ends, &hasher.finalize())
}

fn write_lines(
    alloc: Global,
    entries: usize,
    frames: u64,
    buffers: u64,
    ends: u64,
    digest: &[u8],
) -> Result<String, AllocError>
    ensures { IfOk result (λ written. string_bytes written
        ≡ lines entries frames buffers ends digest.now) }
{
    let mut text = String::new(alloc);
    put_count(alloc, "stored", entries as u64, &mut text)?;
    put_count(alloc, "sent", frames, &mut text)?;
    put_count(alloc, "buffers", buffers, &mut text)?;
    put_count(alloc, "ends", ends, &mut text)?;
    put_octets(alloc, "digest", digest, &mut text)?;
    Ok(text)
}

// Appends the line of a count.
fn put_count(alloc: Global, word: &str, count: u64, text: &mut String) -> Result<(), AllocError>
    ensures { OnOk result (string_bytes text.new
        ≡ string_bytes text.old ++ line word.now (decimal count)) }
{
    let line = format!(in alloc; "{word} {count}\n")?;
    text.push_str(line.as_str())
}

// Appends the line of octets.
fn put_octets(alloc: Global, word: &str, octets: &[u8], text: &mut String) -> Result<(), AllocError>
    ensures { OnOk result (string_bytes text.new
        ≡ string_bytes text.old ++ line word.now (encode_lower octets.now)) }
{
    let digits = hex::encode(alloc, octets)?;
    let line = format!(in alloc; "{word} {digits}\n")?;
    text.push_str(line.as_str())
}
