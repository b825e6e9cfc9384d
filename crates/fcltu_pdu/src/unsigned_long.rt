use ber_core::{BerFault, Reader, Writer, element_length, integer_length};
use ber_shape::Element;

/// INTEGER 0 to 4294967295: the identification of a CLTU or of an event's invocation, or a delay.
pub(crate) struct UnsignedLong;

impl<'a> Element<'a> for UnsignedLong {
    ghost use Rattle.std.specs.Prelude.{ℕ, refl};
    ghost use Rattle.fcltu_pdu.specs.UnsignedLong.{unsigned_long};

    type Value = u32;

    ghost Seen = { ℕ };

    ghost shape = { unsigned_long };

    ghost is_shallow = { refl };

    ghost seen = { λ n. n };

    fn read(reader: &mut Reader<'a>) -> Result<u32, BerFault> {
        let value = reader.integer(&[0x02], 0, 4294967295)?;
        Ok(value as u32)
    }

    #[tactic(auto, using(ber_core::specs::Parts::lengths))]
    fn size(value: &u32) -> usize {
        element_length(&[0x02], integer_length(i128::from(*value)))
    }

    fn write(value: &u32, writer: &mut Writer) {
        writer.integer(&[0x02], i128::from(*value));
    }
}
