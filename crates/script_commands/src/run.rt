// A script is run line by line.
ghost use Rattle.std.specs.Prelude.{◌≡◌, ◌+◌, ◌≤◌, [], IfOk, OnErr, length};
ghost use Rattle.station_law.specs.Lines.{step_text};
ghost use Rattle.script_store.specs.Output.{Wrote};
ghost use Rattle.station_law.specs.Runs.{transcript_from, text_behind, in_order, all_fine};
ghost use Rattle.script_store.specs.Said.{texts};
ghost use Rattle.station_law.specs.Standing.{Stands};
ghost use Rattle.station_law.specs.State.{State};
ghost use Rattle.script_head.specs.Lines.{lines_of};
ghost use Rattle.script_head.specs.Lines.{most_octets};
ghost use Rattle.script_commands.specs.Script.{script_of, script_text, status_of};
ghost use Rattle.script_commands.specs.Script.{status_by, text_at, StepsTo, EndsSo};

use crate::put::{put_bad_line, put_bad_site};
use command_ends::Status;
use drill_text::{LineFault, parse_line};
use octet_core::Sink;
use script_head::{split_head, split_line};
use script_store::{StepDone, Stop};
use station_config::{Site, SiteFault};
use station_law::World;
use std::alloc::Global;
use std::mem;

/// Runs a script line by line, up to the first bad line.
pub fn run_script<O: Sink>(alloc: Global, script: &[u8], output: &mut O) -> Result<Status, Stop>
    requires { length script.now ≤ most_octets }
    ensures written { Wrote (O.written output.old) (O.written output.new)
        (O.faults output.old) (O.faults output.new)
        (script_text (script_of (lines_of script.now))) result }
    ensures status { IfOk result (λ status. status ≡ status_of (script_of (lines_of script.now))) }
{
    let head = split_head(script);
    match Site::parse(alloc, head.settings) {
        Ok(site) => match head.rest {
            Some(rest) => run_lines(alloc, World::new(alloc, site)?, rest, head.lines, output),
            None => {
                put_bad_line(alloc, head.lines + 1, output)?;
                Ok(Status::BadLine)
            }
        },
        Err(SiteFault::BadLine { number, cause }) => {
            put_bad_site(alloc, number, cause, output)?;
            Ok(Status::BadSite)
        }
        Err(SiteFault::Memory) => Err(Stop::Memory),
    }
}

// Runs the lines of a text, behind so many others.
fn run_lines<O: Sink>(
    alloc: Global,
    world: World,
    text: &[u8],
    before: u32,
    output: &mut O,
) -> Result<Status, Stop>
    requires { before + length text.now ≤ most_octets }
    ensures written { (state : State) → Stands world state
        → Wrote (O.written output.old) (O.written output.new)
        (O.faults output.old) (O.faults output.new)
        (transcript_from step_text (before + 1) state (lines_of text.now)) result }
    ensures status { IfOk result (λ status. (state : State) → Stands world state
        → status ≡ status_by (in_order step_text state (lines_of text.now))
        (all_fine step_text state (lines_of text.now))) }
{
    let mut world = world;
    let mut rest = text;
    let mut number = before + 1;
    let mut fine = true;
    while !rest.is_empty() {
        let (line, behind) = split_line(rest);
        match run_line(alloc, &mut world, number, line, output)? {
            StepDone::Fine => {}
            StepDone::Full => fine = false,
            StepDone::WrongState => return Ok(status_at_end(false, fine)),
        }
        rest = behind;
        number += 1;
    }
    // The program ends next, and the system takes what the world holds back at once.
    mem::forget(world);
    Ok(status_at_end(true, fine))
}

// The status of lines, by whether they are in order, and whether no entry of theirs was refused as
// Full.
fn status_at_end(in_order: bool, fine: bool) -> Status
    ensures { result ≡ status_by in_order fine }
{
    if !in_order {
        Status::BadLine
    } else if fine {
        Status::Done
    } else {
        Status::Full
    }
}

// Runs the line of this number, and says so where it is a bad one.
fn run_line<O: Sink>(
    alloc: Global,
    world: &mut World,
    number: u32,
    line: &[u8],
    output: &mut O,
) -> Result<StepDone, Stop>
    ensures written { (state : State) → Stands world.old state
        → Wrote (O.written output.old) (O.written output.new)
        (O.faults output.old) (O.faults output.new)
        (text_at number (step_text state line.now)) result }
    ensures next { StepsTo world.old world.new line.now result }
    ensures done { EndsSo world.old line.now result }
{
    let done = do_line(alloc, world, line, output)?;
    tell_bad_line(alloc, number, done, output)?;
    Ok(done)
}

// Says that the line of this number is a bad one, where it ended as one. Else it takes no memory.
fn tell_bad_line<O: Sink>(
    alloc: Global,
    number: u32,
    step: StepDone,
    output: &mut O,
) -> Result<(), Stop>
    ensures written { Wrote (O.written output.old) (O.written output.new)
        (O.faults output.old) (O.faults output.new)
        (text_behind step number []) result }
    ensures quiet { OnErr result (step ≡ StepDone.WrongState) }
{
    match step {
        StepDone::WrongState => put_bad_line(alloc, number, output),
        StepDone::Fine | StepDone::Full => Ok(()),
    }
}

// Does what a line says. One outside the grammar is in a wrong state.
fn do_line<O: Sink>(
    alloc: Global,
    world: &mut World,
    line: &[u8],
    output: &mut O,
) -> Result<StepDone, Stop>
    ensures written { (state : State) → Stands world.old state
        → Wrote (O.written output.old) (O.written output.new)
        (O.faults output.old) (O.faults output.new)
        (texts (step_text state line.now).said) result }
    ensures next { StepsTo world.old world.new line.now result }
    ensures done { EndsSo world.old line.now result }
{
    match parse_line(alloc, line) {
        Ok(says) => world.step(&says, output),
        Err(LineFault::Bad) => Ok(StepDone::WrongState),
        Err(LineFault::Memory) => Err(Stop::Memory),
    }
}
