// A recorded stream is printed.
ghost use Rattle.std.specs.Prelude.{◌≡◌, ◌<◌, IfOk, IfSome, length};
ghost use Rattle.octet_core.specs.Written.{Gains, Writes};
ghost use Rattle.user_lines.specs.declared.lines_fault.LinesFault.TheVariants as LinesFault;
ghost use Rattle.user_show.specs.declared.ending.Ending.TheVariants as Ending;
ghost use Rattle.user_show.specs.Closing.{text_of, ending_of, rest_line, rest_ending};
ghost use Rattle.user_show.specs.Closing.{EndsOwn, IsOfText, IsOfShow};
ghost use Rattle.user_show.specs.Ending.{ReadRose, WriteRose};
ghost use Rattle.whole_input.specs.declared.reading.TheConstants.{INPUT_OCTETS};
ghost use Rattle.whole_input.specs.declared.input_fault.InputFault.TheVariants as InputFault;

use crate::ending::Ending;
use crate::last_line::end_with;
use isp1_tml::Messages;
use octet_core::{Sink, Source};
use sle_numbers::ServiceType;
use std::alloc::Global;
use user_lines::{LinesFault, put_bad, put_lines};
use whole_input::{INPUT_OCTETS, InputFault, read_input};

/// Reads the whole input, a stream of messages of a service, and writes their lines, up to the first
/// that is bad, which is told last. An ending that names an object comes only where that object's
/// count of faults rose.
pub fn show<I: Source, O: Sink>(
    alloc: Global,
    service: ServiceType,
    input: &mut I,
    output: &mut O,
) -> Ending
    ensures text { EndsOwn result → IfSome (I.left input.old) (λ octets.
        Gains (O.written output.old) (O.written output.new) (text_of service octets)) }
    ensures own { EndsOwn result → IfSome (I.left input.old) (λ octets.
        result ≡ ending_of service octets) }
    ensures long { result ≡ Ending.InputTooLong → IfSome (I.left input.old) (λ octets.
        INPUT_OCTETS < length octets) }
    ensures read { ReadRose result (I.faults input.old) (I.faults input.new) }
    ensures write { WriteRose result (O.faults output.old) (O.faults output.new) }
    ensures only { IsOfShow result }
{
    match read_input(alloc, input) {
        Ok(octets) => show_octets(alloc, service, octets.as_slice(), output),
        Err(InputFault::ReadFault) => end_with(b"read fault\n", Ending::ReadFault, output),
        Err(InputFault::TooLong) => end_with(b"input too long\n", Ending::InputTooLong, output),
        Err(InputFault::Memory) => Ending::Memory,
    }
}

// Writes the lines of octets, behind which the stream ends.
fn show_octets<O: Sink>(
    alloc: Global,
    service: ServiceType,
    octets: &[u8],
    output: &mut O,
) -> Ending
    ensures text { EndsOwn result
        → Gains (O.written output.old) (O.written output.new) (text_of service octets.now) }
    ensures own { EndsOwn result → result ≡ ending_of service octets.now }
    ensures write { WriteRose result (O.faults output.old) (O.faults output.new) }
    ensures only { IsOfText result }
{
    match put_text(alloc, service, octets, output) {
        Ok(ending) => ending,
        Err(LinesFault::WriteFault) => Ending::WriteFault,
        Err(LinesFault::Memory) => Ending::Memory,
    }
}

#[tactic(auto, using(crate::proofs::Closed::whole, crate::proofs::Closed::went_on, crate::proofs::Closed::stopped))]
fn put_text<O: Sink>(
    alloc: Global,
    service: ServiceType,
    octets: &[u8],
    output: &mut O,
) -> Result<Ending, LinesFault>
    ensures written { Writes LinesFault.WriteFault
        (O.written output.old) (O.written output.new) (O.faults output.old) (O.faults output.new)
        (text_of service octets.now) result }
    ensures own { IfOk result (λ ending. ending ≡ ending_of service octets.now) }
    ensures whole { IfOk result IsOfText }
{
    let mut messages = Messages::new(octets, 0);
    if put_lines(alloc, service, &mut messages, output)? {
        return Ok(Ending::BadMessage);
    }
    put_rest(alloc, messages.place(), messages.left(), output)
}

// The stream ended with these octets left over: they are a bad message, where there are any.
fn put_rest<O: Sink>(
    alloc: Global,
    place: u64,
    rest: &[u8],
    output: &mut O,
) -> Result<Ending, LinesFault>
    ensures written { Writes LinesFault.WriteFault
        (O.written output.old) (O.written output.new) (O.faults output.old) (O.faults output.new)
        (rest_line place rest.now) result }
    ensures own { IfOk result (λ ending. ending ≡ rest_ending rest.now) }
{
    if rest.is_empty() {
        return Ok(Ending::Done);
    }
    let mut line = Vec::new(alloc);
    put_bad(place, &mut line)?;
    match output.put_all(line.as_slice()) {
        Ok(()) => Ok(Ending::BadMessage),
        Err(_) => Err(LinesFault::WriteFault),
    }
}
