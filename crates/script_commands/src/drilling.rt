// `drill`: runs a script, and writes what a user would be handed.
ghost use Rattle.std.specs.Prelude.{ℕ, List};
ghost use Rattle.command_ends.specs.Outside.{showing};
ghost use Rattle.script_commands.specs.Drilled.{Drilled};
ghost use Rattle.script_commands.specs.Lawful.{IsLawful};
ghost use Rattle.script_commands.specs.Promise.{IsDrill};

use crate::laws::every_script_is_lawful;
use crate::run::run_script;
use command_ends::{Status, put_line};
use octet_core::{Sink, Source};
use script_store::Stop;
use std::alloc::Global;
use whole_input::{InputFault, read_input};

/// Runs the script on the input, writes its transcript and the line of a status that has one, and
/// answers the status's exit code.
pub fn drill<I: Source, O: Sink>(alloc: Global, input: &mut I, output: &mut O) -> u8
    ensures drilled { IsDrill
        (showing (I.left input.old) (I.faults input.old)
        (O.written output.old) (O.faults output.old))
        (showing (I.left input.new) (I.faults input.new)
        (O.written output.new) (O.faults output.new))
        result }
    ensures lawful { (script : List ℕ) → IsLawful script }
{
    every_script_is_lawful();
    read_and_run(alloc, input, output).code()
}

// Reads the script, and runs it.
fn read_and_run<I: Source, O: Sink>(alloc: Global, input: &mut I, output: &mut O) -> Status
    ensures { Drilled
        (showing (I.left input.old) (I.faults input.old)
        (O.written output.old) (O.faults output.old))
        (showing (I.left input.new) (I.faults input.new)
        (O.written output.new) (O.faults output.new))
        result }
{
    match read_input(alloc, input) {
        Ok(script) => match run_script(alloc, script.as_slice(), output) {
            Ok(status) => status,
            Err(Stop::WriteFault) => Status::WriteFault,
            Err(Stop::Memory) => Status::Memory,
        },
        // Where the line of one of these can't be written, its status stands all the same.
        Err(InputFault::ReadFault) => {
            let _ = put_line(b"read fault\n", output);
            Status::ReadFault
        }
        Err(InputFault::TooLong) => {
            let _ = put_line(b"input too long\n", output);
            Status::InputTooLong
        }
        Err(InputFault::Memory) => Status::Memory,
    }
}
