use ber_core::{BerFault, Reader, Writer, element_length, integer_length};
use ber_shape::Element;

/// Whether frames are missing before one: INTEGER -1 to 16777215.
pub(crate) struct Continuity;

impl<'a> Element<'a> for Continuity {
    ghost use Rattle.std.specs.Prelude.{ℤ, refl};
    ghost use Rattle.return_pdu.specs.Frames.{continuity};

    type Value = i32;

    ghost Seen = { ℤ };

    ghost shape = { continuity };

    ghost is_shallow = { refl };

    ghost seen = { λ continuity. continuity };

    #[inline(always)]
    fn read(reader: &mut Reader<'a>) -> Result<i32, BerFault> {
        let continuity = reader.integer(&[0x02], -1, 16777215)?;
        Ok(continuity as i32)
    }

    #[tactic(auto, using(ber_core::specs::Parts::lengths))]
    fn size(value: &i32) -> usize {
        element_length(&[0x02], integer_length(i128::from(*value)))
    }

    fn write(value: &i32, writer: &mut Writer) {
        writer.integer(&[0x02], i128::from(*value));
    }
}
