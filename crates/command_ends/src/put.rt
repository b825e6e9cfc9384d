// What a command writes.
ghost use Rattle.std.specs.Prelude.{◌≡◌, IfErr};
ghost use Rattle.script_store.specs.Output.{Wrote};
ghost use Rattle.command_ends.specs.Ends.{Tells};

use crate::status::Status;
use octet_core::Sink;
use script_store::Stop;

/// Writes a text as the whole of a command's, and answers the exit code. It takes no memory.
pub fn tell<O: Sink>(text: &[u8], own: Status, output: &mut O) -> u8
    ensures { Tells (O.written output.old) (O.written output.new)
        (O.faults output.old) (O.faults output.new)
        text.now own result }
{
    match output.put_all(text) {
        Ok(()) => own.code(),
        Err(_) => Status::WriteFault.code(),
    }
}

/// Writes octets as they are: a line brings its line end.
pub fn put_line<O: Sink>(line: &[u8], output: &mut O) -> Result<(), Stop>
    ensures written { Wrote (O.written output.old) (O.written output.new)
        (O.faults output.old) (O.faults output.new)
        line.now result }
    ensures fault { IfErr result (λ stop. stop ≡ Stop.WriteFault) }
{
    match output.put_all(line) {
        Ok(()) => Ok(()),
        Err(_) => Err(Stop::WriteFault),
    }
}
