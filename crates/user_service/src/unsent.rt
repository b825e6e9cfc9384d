// The CLTUs that a user sends, read of its input.
ghost use Rattle.std.specs.Prelude.{◌≡◌, ◌≤◌, ◌⊎◌, Some, IfOk, OnOk, IsErrOf, length, true};
ghost use Rattle.std.specs.List.{list_all};
ghost use Rattle.octet_core.specs.Fault.{Rose};
ghost use Rattle.user_task.specs.Fitting.{fits_line};
ghost use Rattle.whole_input.specs.declared.reading.TheConstants.{INPUT_OCTETS};
ghost use Rattle.user_show.specs.Ending.{EndsWith};
ghost use Rattle.user_show.specs.declared.ending.Ending.TheVariants as Ending;
ghost use Rattle.user_service.specs.Input.{Names, NamesFor};
ghost use Rattle.user_service.specs.Telling.{TellsWhy, bad_line};
ghost use Rattle.user_service.specs.declared.unsent.Unsent.TheVariants as Unsent;

use cltu_lines::{TextFault, read_cltus};
use octet_core::{Sink, Source};
use std::alloc::{AllocError, Global};
use user_show::{Ending, end_with};
use user_task::Cltus;
use user_words::Asked;
use whole_input::{InputFault, read_input};

// Why no CLTU of an input is sent.
#[derive(Clone, Copy, Debug, PartialEq, Eq)]
pub(crate) enum Unsent {
    // The input failed.
    ReadFault,
    // The input holds more octets than it may.
    TooLong,
    // The line of this number is bad, counted from 1.
    BadLine(u32),
    // Memory was refused.
    Memory,
}

// The CLTUs of the input, where they are asked for. Else the input isn't read.
pub(crate) fn cltus_for<I: Source>(
    alloc: Global,
    asked: Asked,
    input: &mut I,
) -> Result<Cltus, Unsent>
    ensures named { NamesFor asked (I.left input.old) result }
    ensures fits { IfOk result (λ cltus. list_all fits_line cltus ≡ true) }
    ensures rose { IsErrOf result Unsent.ReadFault
        → Rose (I.faults input.old) (I.faults input.new) }
    ensures kept { IsErrOf result Unsent.ReadFault ⊎ (I.faults input.new ≡ I.faults input.old) }
{
    match asked {
        Asked::Cltu { .. } => read_lines(alloc, input),
        _ => Ok(Cltus::from_lines(Vec::new(alloc))),
    }
}

// The CLTUs of the whole input.
fn read_lines<I: Source>(alloc: Global, input: &mut I) -> Result<Cltus, Unsent>
    ensures named { Names (I.left input.old) result }
    ensures fits { IfOk result (λ cltus. list_all fits_line cltus ≡ true) }
    ensures rose { IsErrOf result Unsent.ReadFault
        → Rose (I.faults input.old) (I.faults input.new) }
    ensures kept { IsErrOf result Unsent.ReadFault ⊎ (I.faults input.new ≡ I.faults input.old) }
{
    match read_input(alloc, input) {
        Ok(text) => cltus_of(alloc, text.as_slice()),
        Err(InputFault::ReadFault) => Err(Unsent::ReadFault),
        Err(InputFault::TooLong) => Err(Unsent::TooLong),
        Err(InputFault::Memory) => Err(Unsent::Memory),
    }
}

fn cltus_of(alloc: Global, text: &[u8]) -> Result<Cltus, Unsent>
    requires { length text.now ≤ INPUT_OCTETS }
    ensures named { Names (Some text.now) result }
    ensures fits { IfOk result (λ cltus. list_all fits_line cltus ≡ true) }
    ensures read { IsErrOf result Unsent.ReadFault → ⊥ }
{
    match read_cltus(alloc, text) {
        Ok(cltus) => Ok(cltus),
        Err(TextFault::BadLine(number)) => Err(Unsent::BadLine(number)),
        Err(TextFault::Memory) => Err(Unsent::Memory),
    }
}

impl Unsent {
    // Writes why nothing is sent.
    pub(crate) fn tell<O: Sink>(self, alloc: Global, output: &mut O) -> Ending
        ensures { TellsWhy (O.written output.old) (O.written output.new)
            (O.faults output.old) (O.faults output.new) self result }
    {
        match self {
            Unsent::ReadFault => end_with(b"read fault\n", Ending::ReadFault, output),
            Unsent::TooLong => end_with(b"input too long\n", Ending::InputTooLong, output),
            Unsent::BadLine(number) => tell_bad_line(alloc, number, output),
            Unsent::Memory => Ending::Memory,
        }
    }
}

fn tell_bad_line<O: Sink>(alloc: Global, number: u32, output: &mut O) -> Ending
    ensures { EndsWith (O.written output.old) (O.written output.new)
        (O.faults output.old) (O.faults output.new) (bad_line number) Ending.BadLine result
        ⊎ ((result ≡ Ending.Memory) × (O.written output.new ≡ O.written output.old)
        × (O.faults output.new ≡ O.faults output.old)) }
{
    match line_of(alloc, number) {
        Ok(line) => end_with(line.as_slice(), Ending::BadLine, output),
        Err(_) => Ending::Memory,
    }
}

// (a text of its own, whose octets its caller needn't know to be text)
fn line_of(alloc: Global, number: u32) -> Result<Vec<u8>, AllocError>
    ensures { IfOk result (λ line. line.items ≡ bad_line number) }
{
    let line = format!(in alloc; "bad line {number}\n")?;
    Ok(line.into_bytes())
}
