// What the line of a connection says, and that of a turn of the uplink.
ghost use Rattle.std.specs.Prelude.{◌≡◌, IfOk, map};
ghost use Rattle.script_store.specs.Output.{Wrote};
ghost use Rattle.script_store.specs.Outcomes.{said_of_turn, done_of_turn};
ghost use Rattle.script_store.specs.Said.{texts, text_of, linked};

use octet_core::Sink;
use script_store::{StepDone, Stop, put_line};
use station_links::LinkLine;
use station_uplink::Turned;
use std::alloc::Global;

/// What the line of a connection says, in order.
#[derive(Debug, Drop)]
pub struct SaidAt {
    /// The connection's number.
    pub c: u32,
    /// What is said of it.
    pub lines: Vec<LinkLine>,
}

impl SaidAt {
    // Writes it as lines of the transcript.
    pub fn put<O: Sink>(&self, alloc: Global, output: &mut O) -> Result<(), Stop>
        ensures { Wrote (O.written output.old) (O.written output.new)
            (O.faults output.old) (O.faults output.new)
            (texts (map (linked self.now.c) self.now.lines.items)) result }
    {
        put_lines(alloc, self.c, &self.lines, output)
    }
}

// Writes what is said of a connection.
fn put_lines<O: Sink>(alloc: Global, c: u32, lines: &[LinkLine], output: &mut O) -> Result<(), Stop>
    ensures { Wrote (O.written output.old) (O.written output.new)
        (O.faults output.old) (O.faults output.new)
        (texts (map (linked c) lines.now)) result }
{
    for line in lines {
        put_said(alloc, c, line, output)?;
    }
    Ok(())
}

fn put_said<O: Sink>(alloc: Global, c: u32, line: &LinkLine, output: &mut O) -> Result<(), Stop>
    ensures { Wrote (O.written output.old) (O.written output.new)
        (O.faults output.old) (O.faults output.new)
        (text_of (linked c line.now)) result }
{
    put_line(alloc, &line.of_connection(c), output)
}

/// Writes what is said of a turn of the uplink, and answers how its line ends.
pub fn put_turn<O: Sink>(alloc: Global, how: &Turned, output: &mut O) -> Result<StepDone, Stop>
    ensures written { Wrote (O.written output.old) (O.written output.new)
        (O.faults output.old) (O.faults output.new)
        (texts (said_of_turn how.now)) result }
    ensures done { IfOk result (λ done. done ≡ done_of_turn how.now) }
{
    match how {
        Turned::Wrong => Ok(StepDone::WrongState),
        Turned::Quiet => Ok(StepDone::Fine),
        Turned::Says(line) => {
            put_line(alloc, &line.line(), output)?;
            Ok(StepDone::Fine)
        }
    }
}
