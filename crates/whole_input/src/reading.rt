// An input is read to its end.
ghost use Rattle.std.specs.Prelude.{◌≡◌, ◌<◌, ◌≤◌, ◌⊎◌, IfOk, IfErr, IfSome, IsErrOf, OnErr, OnOk};
ghost use Rattle.std.specs.Prelude.{length};
ghost use Rattle.octet_core.specs.Fault.{count_up};
ghost use Rattle.octet_core.specs.Taken.{Gives};
ghost use Rattle.whole_input.specs.declared.input_fault.InputFault.TheVariants as InputFault;
ghost use Rattle.whole_input.specs.declared.reading.TheConstants.{INPUT_OCTETS};

use crate::input_fault::InputFault;
use octet_core::Source;
use std::alloc::Global;

/// The most octets that an input may have.
pub const INPUT_OCTETS: usize = 16_777_216;

// How many octets of the input are asked for at once.
const PIECE_OCTETS: usize = 65_536;

/// Reads the input to its end, in pieces.
pub fn read_input<I: Source>(alloc: Global, input: &mut I) -> Result<Vec<u8>, InputFault>
    ensures ok { IfOk result (λ octets. length octets.items ≤ INPUT_OCTETS) }
    ensures octets { IfOk result (λ octets. IfSome (I.left input.old)
        (λ left. octets.items ≡ left)) }
    ensures too_long { IsErrOf result InputFault.TooLong →
        IfSome (I.left input.old) (λ left. INPUT_OCTETS < length left) }
    ensures raised { IsErrOf result InputFault.ReadFault →
        I.faults input.new ≡ count_up (I.faults input.old) }
    ensures kept { IsErrOf result InputFault.ReadFault
        ⊎ (I.faults input.new ≡ I.faults input.old) }
{
    let mut octets = Vec::new(alloc);
    let mut piece = [0u8; PIECE_OCTETS];
    while octets.len() <= INPUT_OCTETS {
        let count = take_piece(input, &mut piece)?;
        if count == 0 {
            return Ok(octets);
        }
        octets.extend_from_slice(&piece[..count])?;
    }
    Err(InputFault::TooLong)
}

// Takes a piece of the input, by one read.
fn take_piece<I: Source>(input: &mut I, piece: &mut [u8]) -> Result<usize, InputFault>
    ensures taken { IfOk result (λ count. Gives (I.left input.old) (I.left input.new)
        piece.old piece.new count) }
    ensures within { IfOk result (λ count. count ≤ length piece.new) }
    ensures length { length piece.new ≡ length piece.old }
    ensures fault { IfErr result (λ fault. fault ≡ InputFault.ReadFault) }
    ensures raised { OnErr result (I.faults input.new ≡ count_up (I.faults input.old)) }
    ensures kept { OnOk result (I.faults input.new ≡ I.faults input.old) }
{
    match input.take(piece) {
        Ok(count) => Ok(count),
        Err(_) => Err(InputFault::ReadFault),
    }
}
