// What a run writes at its end.
ghost use Rattle.std.specs.Prelude.{◌≡◌};
ghost use Rattle.run_command.specs.Ends.{Writes, EndsBefore, EndsBehind, unwritten};
ghost use Rattle.run_command.specs.Texts.{radiated_count};

use crate::ending::status_of;
use crate::lines::{status_line, text_of_run};
use crate::status::RunStatus;
use antenna_turns::{Radiated, TurnsSpent};
use octet_core::{Memory, Sink};
use station_run::RunReport;
use std::alloc::Global;

// The status of a run whose text can't be written.
fn unwritten_status(own: RunStatus) -> RunStatus
    ensures { result ≡ unwritten own }
{
    match own {
        RunStatus::Memory => RunStatus::Memory,
        _ => RunStatus::WriteFault,
    }
}

// Writes a text, and answers the exit code.
fn write<O: Sink>(text: &str, own: RunStatus, output: &mut O) -> u8
    ensures { Writes (O.written output.old) (O.written output.new) (O.faults output.old)
        (O.faults output.new) text.now own result }
{
    match output.put_all(text.as_bytes()) {
        Ok(()) => own.code(),
        Err(_) => unwritten_status(own).code(),
    }
}

// Writes the line of a status, and answers the exit code.
pub(crate) fn tell<O: Sink>(alloc: Global, own: RunStatus, output: &mut O) -> u8
    ensures { EndsBefore (O.written output.old) (O.written output.new) (O.faults output.old)
        (O.faults output.new) own result }
{
    match status_line(alloc, own) {
        Ok(line) => write(line.as_str(), own, output),
        Err(Memory) => RunStatus::Memory.code(),
    }
}

// How many CLTUs were radiated.
fn radiated_of(radiating: &Result<Radiated, TurnsSpent>) -> u64
    ensures { result ≡ radiated_count radiating.now }
{
    match radiating {
        Ok(radiated) => radiated.sent,
        Err(spent) => spent.radiated.sent,
    }
}

// Writes what the workers did and the line of the status, and answers the exit code.
pub(crate) fn tell_run<O: Sink>(alloc: Global, report: &RunReport, output: &mut O) -> u8
    ensures { EndsBehind (O.written output.old) (O.written output.new) (O.faults output.old)
        (O.faults output.new) report.now result }
{
    let doors = report.doors.as_slice();
    let own = status_of(&report.recording, &report.radiating, doors);
    let radiated = radiated_of(&report.radiating);
    match text_of_run(alloc, report.published, radiated, doors, own) {
        Ok(text) => write(text.as_str(), own, output),
        Err(Memory) => RunStatus::Memory.code(),
    }
}
