// The lines of messages.
ghost use Rattle.std.specs.Prelude.{◌≡◌, ◌++◌, [], true, false, is_some, IfOk, OnOk};
ghost use Rattle.octet_core.specs.Written.{Writes};
ghost use Rattle.user_lines.specs.declared.lines_fault.LinesFault.TheVariants as LinesFault;
ghost use Rattle.user_lines.specs.Lines.{lines_of, bad_line};
ghost use Rattle.user_lines.specs.Shown.{shown_last, shown_of, all_told};

use crate::lines_fault::LinesFault;
use crate::text::{put_bad, put_told};
use crate::told::Told;
use isp1_tml::Messages;
use octet_core::Sink;
use sle_numbers::ServiceType;
use std::alloc::Global;

/// Writes the lines of the messages that came whole, one message after the other, up to the first
/// that is bad, which is told last. It answers whether there was one; where there was none, all
/// messages are given, and their octets that make no message yet are left over.
pub fn put_lines<S: Sink>(
    alloc: Global,
    service: ServiceType,
    messages: &mut Messages<'_>,
    output: &mut S,
) -> Result<bool, LinesFault>
    ensures written { Writes LinesFault.WriteFault
        (S.written output.old) (S.written output.new) (S.faults output.old) (S.faults output.new)
        (shown_of service messages.old).text result }
    ensures bad { IfOk result (λ bad. bad ≡ (shown_of service messages.old).bad) }
    ensures left { IfOk result (λ bad. bad ≡ false
        → messages.new ≡ all_told service messages.old) }
{
    let mut line = Vec::new(alloc);
    let mut place = messages.place();
    while let Ok(Some(message)) = messages.next_message() {
        let Some(told) = Told::of(service, message) else {
            return end_bad(place, &mut line, output);
        };
        put_message(told, &mut line, output)?;
        place = messages.place();
    }
    put_end(messages, &mut line, output)
}

// Writes the lines of one message.
fn put_message<S: Sink>(
    told: Told<'_>,
    line: &mut Vec<u8>,
    output: &mut S,
) -> Result<(), LinesFault>
    ensures { Writes LinesFault.WriteFault
        (S.written output.old) (S.written output.new) (S.faults output.old) (S.faults output.new)
        (lines_of told.entry) result }
{
    line.clear();
    put_told(told, line)?;
    put_line(line.as_slice(), output)
}

// Writes the line of a bad message, behind which nothing is told.
fn end_bad<S: Sink>(place: u64, line: &mut Vec<u8>, output: &mut S) -> Result<bool, LinesFault>
    ensures written { Writes LinesFault.WriteFault
        (S.written output.old) (S.written output.new) (S.faults output.old) (S.faults output.new)
        (bad_line place) result }
    ensures bad { IfOk result (λ bad. bad ≡ true) }
{
    put_bad_message(place, line, output)?;
    Ok(true)
}

// Writes the line of a bad message.
fn put_bad_message<S: Sink>(
    place: u64,
    line: &mut Vec<u8>,
    output: &mut S,
) -> Result<(), LinesFault>
    ensures { Writes LinesFault.WriteFault
        (S.written output.old) (S.written output.new) (S.faults output.old) (S.faults output.new)
        (bad_line place) result }
{
    line.clear();
    put_bad(place, line)?;
    put_line(line.as_slice(), output)
}

fn put_line<S: Sink>(line: &[u8], output: &mut S) -> Result<(), LinesFault>
    ensures { Writes LinesFault.WriteFault
        (S.written output.old) (S.written output.new) (S.faults output.old) (S.faults output.new)
        line.now result }
{
    match output.put_all(line) {
        Ok(()) => Ok(()),
        Err(_) => Err(LinesFault::WriteFault),
    }
}

// Behind the last message: writes that the octets are refused, where they are.
fn put_end<S: Sink>(
    messages: &mut Messages<'_>,
    line: &mut Vec<u8>,
    output: &mut S,
) -> Result<bool, LinesFault>
    requires { messages.old.messages ≡ [] }
    ensures written { Writes LinesFault.WriteFault
        (S.written output.old) (S.written output.new) (S.faults output.old) (S.faults output.new)
        (shown_last messages.old.place (is_some messages.old.fault)).text result }
    ensures bad { IfOk result (λ bad. bad ≡ is_some messages.old.fault) }
    ensures left { messages.new ≡ messages.old }
{
    let place = messages.place();
    match messages.next_message() {
        Ok(_) => Ok(false),
        Err(_) => end_bad(place, line, output),
    }
}
