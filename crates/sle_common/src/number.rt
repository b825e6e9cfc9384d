use ber_core::{BerFault, Reader, Writer, element_length, integer_length};
use ber_shape::Element;

/// The number of an invocation: INTEGER 0 to 65535.
pub struct InvokeId;

impl<'a> Element<'a> for InvokeId {
    ghost use Rattle.std.specs.Prelude.{ℕ, refl};
    ghost use Rattle.sle_common.specs.Numbers.{invoke_id};

    type Value = u16;

    ghost Seen = { ℕ };

    ghost shape = { invoke_id };

    ghost is_shallow = { refl };

    ghost seen = { λ id. id };

    fn read(reader: &mut Reader<'a>) -> Result<u16, BerFault> {
        let id = reader.integer(&[0x02], 0, 65535)?;
        Ok(id as u16)
    }

    #[tactic(auto, using(ber_core::specs::Parts::lengths))]
    fn size(id: &u16) -> usize {
        element_length(&[0x02], integer_length(i128::from(*id)))
    }

    fn write(id: &u16, writer: &mut Writer) {
        writer.integer(&[0x02], i128::from(*id));
    }
}

/// An INTEGER without a range of its own: at most 64 bits, signed or unsigned.
pub struct Number;

impl<'a> Element<'a> for Number {
    ghost use Rattle.std.specs.Prelude.{ℤ, refl};
    ghost use Rattle.sle_common.specs.Numbers.{number};

    type Value = i128;

    ghost Seen = { ℤ };

    ghost shape = { number };

    ghost is_shallow = { refl };

    ghost seen = { λ n. n };

    fn read(reader: &mut Reader<'a>) -> Result<i128, BerFault> {
        reader.integer(&[0x02], LEAST, GREATEST)
    }

    #[tactic(auto, using(ber_core::specs::Parts::lengths))]
    fn size(value: &i128) -> usize {
        element_length(&[0x02], integer_length(*value))
    }

    fn write(value: &i128, writer: &mut Writer) {
        writer.integer(&[0x02], *value);
    }
}

/// The least INTEGER of 64 bits.
pub(crate) const LEAST: i128 = i64::MIN as i128;

/// The greatest INTEGER of 64 bits.
pub(crate) const GREATEST: i128 = u64::MAX as i128;
