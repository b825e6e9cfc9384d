// The lines that a step writes.
ghost use Rattle.std.specs.Prelude.{◌≡◌, IfErr};
ghost use Rattle.drill_text.specs.Transcript.{text_of};
ghost use Rattle.script_store.specs.Output.{Wrote};
ghost use Rattle.script_store.specs.Said.{sent_text};

use crate::stop::Stop;
use drill_text::{TranscriptLine, write_line};
use octet_core::{Octets, Sink};
use std::alloc::Global;

/// Writes a line of the transcript.
pub fn put_line<O: Sink>(
    alloc: Global,
    line: &TranscriptLine<'_>,
    output: &mut O,
) -> Result<(), Stop>
    ensures { Wrote (O.written output.old) (O.written output.new)
        (O.faults output.old) (O.faults output.new)
        (text_of line.now) result }
{
    let mut text = Octets::new(alloc);
    write_line(alloc, line, &mut text)?;
    put(text.as_slice(), output)
}

/// Writes that a connection was handed a message.
pub fn put_sent<O: Sink>(
    alloc: Global,
    connection: u32,
    message: &[u8],
    output: &mut O,
) -> Result<(), Stop>
    ensures { Wrote (O.written output.old) (O.written output.new)
        (O.faults output.old) (O.faults output.new)
        (sent_text connection message.now) result }
{
    let line = TranscriptLine::Sent {
        c: connection,
        octets: message,
    };
    put_line(alloc, &line, output)
}

fn put<O: Sink>(text: &[u8], output: &mut O) -> Result<(), Stop>
    ensures written { Wrote (O.written output.old) (O.written output.new)
        (O.faults output.old) (O.faults output.new)
        text.now result }
    ensures fault { IfErr result (λ stop. stop ≡ Stop.WriteFault) }
{
    match output.put_all(text) {
        Ok(()) => Ok(()),
        Err(_) => Err(Stop::WriteFault),
    }
}
