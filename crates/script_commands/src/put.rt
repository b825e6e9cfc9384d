// The lines that a script's command writes, beside those of the world.
ghost use Rattle.script_store.specs.Output.{Wrote};
ghost use Rattle.station_law.specs.Runs.{bad_line};
ghost use Rattle.script_commands.specs.Script.{bad_site_line};

use command_ends::put_line;
use octet_core::Sink;
use script_store::Stop;
use std::alloc::Global;

/// Says which line is outside the grammar or in a wrong state.
pub fn put_bad_line<O: Sink>(alloc: Global, number: u32, output: &mut O) -> Result<(), Stop>
    ensures { Wrote (O.written output.old) (O.written output.new)
        (O.faults output.old) (O.faults output.new)
        (bad_line number) result }
{
    let line = format!(in alloc; "bad line {number}\n")?;
    put_line(line.as_bytes(), output)
}

/// Says which line of the head is refused, and for which cause.
pub fn put_bad_site<O: Sink>(
    alloc: Global,
    number: u32,
    cause: u8,
    output: &mut O,
) -> Result<(), Stop>
    ensures { Wrote (O.written output.old) (O.written output.new)
        (O.faults output.old) (O.faults output.new)
        (bad_site_line number cause) result }
{
    let line = format!(in alloc; "bad site {number} {cause}\n")?;
    put_line(line.as_bytes(), output)
}
