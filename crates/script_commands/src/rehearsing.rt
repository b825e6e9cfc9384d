// `rehearse`: what a pass of frames that is made from a number comes to.
ghost use Rattle.std.specs.Prelude.{◌≤◌};
ghost use Rattle.script_commands.specs.Rehearsals.{IsRehearsal};

use command_ends::{Status, tell};
use octet_core::Sink;
use std::alloc::Global;

/// Writes what a rehearsal of `n` frames comes to, and answers the exit code.
#[tactic(auto, using(crate::proofs::Rehearsals::unwritten))]
pub fn rehearse<O: Sink>(alloc: Global, n: u32, output: &mut O) -> u8
    requires some { 1 ≤ n }
    requires few { n ≤ 20000 }
    ensures { IsRehearsal n (O.written output.old) (O.written output.new)
        (O.faults output.old) (O.faults output.new) result }
{
    rehearsal::laws::a_rehearsal_is_a_script();
    match rehearsal::rehearse(alloc, n) {
        Ok(text) => tell(text.as_bytes(), Status::Done, output),
        Err(_) => Status::Memory.code(),
    }
}
