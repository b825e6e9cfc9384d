// What a START of the desk hands over of the archive.
ghost use Rattle.std.specs.Prelude.{◌<◌, ◌^◌, IfOk, length};
ghost use Rattle.archive_terms.specs.Archive.{IsArchive};
ghost use Rattle.sle_numbers.specs.RequestedFrameQuality.{number_of};
ghost use Rattle.station_desk.specs.Start.{told_desk};
ghost use Rattle.rehearsal.specs.Counts.{Counts};

use crate::archive::Archive;
use crate::tally::Tally;
use cds_time::Cds;
use octet_core::Memory;
use sle_numbers::RequestedFrameQuality;
use station_desk::Buffers;
use station_desk::laws::a_start_has_few_buffers;
use std::alloc::Global;

/// Makes a START of these times and this quality over an archive, and counts what it hands over.
pub fn count_start(
    alloc: Global,
    archive: &Archive,
    start: &Cds,
    stop: &Cds,
    quality: RequestedFrameQuality,
) -> Result<Tally, Memory>
    requires archive { IsArchive archive.now }
    requires few { length archive.now < 2 ^ 32 }
    ensures { IfOk result (λ tally. Counts tally
        (told_desk archive.now start.now stop.now (number_of quality))) }
{
    a_start_has_few_buffers();
    let mut buffers = Buffers::of_start(alloc, archive, start, stop, quality)?;
    let mut tally = Tally::new();
    while buffers.advance()? {
        let message = buffers.message()?;
        tally.add(buffers.items(), message.octets());
    }
    Ok(tally)
}
