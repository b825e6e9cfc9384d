use crate::number::{GREATEST, LEAST};
use ber_core::{BerFault, Reader, Writer, element_length, integer_length};
use ber_shape::Element;

/// Why an invocation is refused (CCSDS 911.1-B, annex A): a number of 64 bits, signed or unsigned.
#[derive(Clone, Copy, Debug, PartialEq, Eq)]
pub enum Diagnostic {
    /// Under the context tag 0, one that all operations share.
    Common(i128),
    /// Under the context tag 1, one of the operation's own.
    Specific(i128),
}

impl<'a> Element<'a> for Diagnostic {
    ghost use Rattle.std.specs.Prelude.{refl};
    ghost use Rattle.sle_common.specs.declared.diagnostic.Diagnostic.{Diagnostic};
    ghost use Rattle.sle_common.specs.Diagnostic.{diagnostic};

    type Value = Diagnostic;

    ghost Seen = { Diagnostic };

    ghost shape = { diagnostic };

    ghost is_shallow = { refl };

    ghost seen = { λ d. d };

    fn read(reader: &mut Reader<'a>) -> Result<Diagnostic, BerFault> {
        if reader.next_is(&[0x81]) {
            let number = reader.integer(&[0x81], LEAST, GREATEST)?;
            return Ok(Diagnostic::Specific(number));
        }
        let number = reader.integer(&[0x80], LEAST, GREATEST)?;
        Ok(Diagnostic::Common(number))
    }

    #[tactic(auto, using(ber_core::specs::Parts::lengths))]
    fn size(value: &Diagnostic) -> usize {
        match value {
            Diagnostic::Common(number) => element_length(&[0x80], integer_length(*number)),
            Diagnostic::Specific(number) => element_length(&[0x81], integer_length(*number)),
        }
    }

    fn write(value: &Diagnostic, writer: &mut Writer) {
        match value {
            Diagnostic::Common(number) => writer.integer(&[0x80], *number),
            Diagnostic::Specific(number) => writer.integer(&[0x81], *number),
        }
    }
}
