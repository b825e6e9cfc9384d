// The desk, which is connection 0.
ghost use Rattle.archive_terms.specs.Archive.{IsArchive};
ghost use Rattle.sle_numbers.specs.RequestedFrameQuality.{number_of};
ghost use Rattle.script_store.specs.Output.{Wrote};
ghost use Rattle.station_law.specs.Desk.{said_at_start};
ghost use Rattle.script_store.specs.Said.{texts};

use cds_time::Cds;
use octet_core::Sink;
use script_store::{Stop, put_sent};
use sle_numbers::RequestedFrameQuality;
use station_desk::{Buffers, Looks};
use std::alloc::Global;

// The connection of the desk.
const DESK: u32 = 0;

/// Answers a START of the desk that isn't refused: hands its buffers over.
pub fn answer_start<L: Looks, O: Sink>(
    alloc: Global,
    archive: &L,
    start: &Cds,
    stop: &Cds,
    quality: RequestedFrameQuality,
    output: &mut O,
) -> Result<(), Stop>
    requires { IsArchive (L.entries archive.now) }
    ensures { Wrote (O.written output.old) (O.written output.new)
        (O.faults output.old) (O.faults output.new)
        (texts (said_at_start (L.entries archive.now) start.now stop.now (number_of quality)))
        result }
{
    let mut buffers = Buffers::of_start(alloc, archive, start, stop, quality)?;
    while buffers.advance()? {
        let message = buffers.message()?;
        put_sent(alloc, DESK, message.octets(), output)?;
    }
    Ok(())
}
