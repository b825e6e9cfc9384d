use crate::diagnostic::Diagnostic;
use ber_core::{BerFault, Reader, Writer, element_length};
use ber_shape::{Element, read_around, size_around, write_around};

/// What a return answers (CCSDS 911.1-B, annex A): [0] NULL where the operation was done, [1]
/// around why not.
pub struct Confirmation;

impl<'a> Element<'a> for Confirmation {
    ghost use Rattle.std.specs.Prelude.{Result, refl};
    ghost use Rattle.sle_common.specs.declared.diagnostic.Diagnostic.{Diagnostic};
    ghost use Rattle.sle_common.specs.Answer.{confirmation};

    type Value = Result<(), Diagnostic>;

    ghost Seen = { Result (Unit {0}) Diagnostic };

    ghost shape = { confirmation };

    ghost is_shallow = { refl };

    ghost seen = { λ result. result };

    fn read(reader: &mut Reader<'a>) -> Result<Result<(), Diagnostic>, BerFault> {
        if reader.next_is(&[0xa1]) {
            let diagnostic = read_around::<Diagnostic>(&[0xa1], reader)?;
            return Ok(Err(diagnostic));
        }
        reader.null(&[0x80])?;
        Ok(Ok(()))
    }

    #[tactic(auto, using(ber_core::specs::Parts::lengths))]
    fn size(value: &Result<(), Diagnostic>) -> usize {
        match value {
            Ok(()) => element_length(&[0x80], 0),
            Err(diagnostic) => size_around::<Diagnostic>(&[0xa1], diagnostic),
        }
    }

    fn write(value: &Result<(), Diagnostic>, writer: &mut Writer) {
        match value {
            Ok(()) => writer.null(&[0x80]),
            Err(diagnostic) => write_around::<Diagnostic>(&[0xa1], diagnostic, writer),
        }
    }
}
