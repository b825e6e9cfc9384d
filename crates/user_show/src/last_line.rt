// The last line of a user program.
ghost use Rattle.user_show.specs.Ending.{EndsWith};

use crate::ending::Ending;
use octet_core::Sink;

/// Writes the last line of a program that ends so; where the output fails, that is how it ends.
pub fn end_with<O: Sink>(line: &[u8], ending: Ending, output: &mut O) -> Ending
    ensures { EndsWith (O.written output.old) (O.written output.new)
        (O.faults output.old) (O.faults output.new) line.now ending result }
{
    match output.put_all(line) {
        Ok(()) => ending,
        Err(_) => Ending::WriteFault,
    }
}
