// A value of a table as an INTEGER.
ghost use Rattle.std.specs.Prelude.{◌≡◌, pos, [], ◌∷◌};
ghost use Rattle.ber_core.specs.Reading.{Gives, integer_of, primitive_at};

use ber_core::{BerFault, Reader, Writer, element_length, integer_length};
use ber_shape::Element;
use sle_numbers::Numbered;
use std::marker::PhantomData;

/// INTEGER that is the number of a value of a table; any other one is refused where its content
/// begins.
pub struct InTable<T>(PhantomData<T>);

impl<'a, T: Numbered> Element<'a> for InTable<T> {
    ghost use Rattle.std.specs.Prelude.{refl};
    ghost use Rattle.sle_common.specs.InTable.{in_table};

    type Value = T;

    ghost Seen = { T };

    ghost shape = { in_table T.number_of T.all T.each };

    ghost is_shallow = { refl };

    ghost seen = { λ value. value };

    #[tactic(auto, using(crate::specs::InTable::read_inside))]
    fn read(reader: &mut Reader<'a>) -> Result<T, BerFault> {
        reader.octets();
        let number = match read_number(reader) {
            Ok(number) => number,
            Err(fault) => return Err(fault),
        };
        let place = reader
            .place()
            .saturating_sub(integer_length(i128::from(number)));
        match T::from_number(number) {
            Some(value) => Ok(value),
            None => Err(BerFault::BadContent { place }),
        }
    }

    #[tactic(auto, using(ber_core::specs::Parts::lengths))]
    fn size(value: &T) -> usize {
        element_length(&[0x02], integer_length(i128::from(value.number())))
    }

    fn write(value: &T, writer: &mut Writer) {
        writer.integer(&[0x02], i128::from(value.number()));
    }
}

fn read_number(reader: &mut Reader) -> Result<u8, BerFault>
    ensures exact { Gives (λ n. (pos n, reader.new)) result
        (primitive_at (integer_of (pos 0) (pos 127)) reader.old (0x02 ∷ [])) }
    ensures octets { reader.new.octets ≡ reader.old.octets }
{
    let number = reader.integer(&[0x02], 0, 127)?;
    Ok(number as u8)
}
