ghost use Rattle.std.specs.Prelude.{◌≡◌, ◌≤◌, [], ◌∷◌, length};
ghost use Rattle.ber_core.specs.Integer.{integer_octets};
ghost use Rattle.ber_core.specs.Tree.{primitive};
ghost use Rattle.ber_core.specs.Spelling.{canonical};

use crate::element::Element;
use ber_core::{BerFault, Reader, Writer, element_length, integer_length};

/// INTEGER from `LEAST` to `MOST` (X.690 8.3).
pub struct Integer<const LEAST: i64, const MOST: i64>;

impl<'a, const LEAST: i64, const MOST: i64> Element<'a> for Integer<LEAST, MOST> {
    ghost use Rattle.std.specs.Prelude.{ℤ, [], ◌∷◌, refl};
    ghost use Rattle.ber_shape.specs.Content.{integer};
    ghost use Rattle.ber_shape.specs.Element.{simple};

    type Value = i64;

    ghost Seen = { ℤ };

    ghost shape = { simple (0x02 ∷ []) (integer LEAST MOST) refl };

    ghost is_shallow = { refl };

    ghost seen = { λ value. value };

    fn read(reader: &mut Reader<'a>) -> Result<i64, BerFault> {
        let value = reader.integer(&[0x02], i128::from(LEAST), i128::from(MOST))?;
        Ok(value as i64)
    }

    fn size(value: &i64) -> usize {
        integer_size(*value)
    }

    fn write(value: &i64, writer: &mut Writer) {
        writer.integer(&[0x02], i128::from(*value));
    }
}

#[tactic(auto, using(ber_core::specs::Parts::lengths))]
fn integer_size(value: i64) -> usize
    ensures exact { result ≡ length (canonical (primitive (0x02 ∷ []) (integer_octets value))) }
    ensures within { result ≤ 26 }
{
    element_length(&[0x02], integer_length(i128::from(value)))
}
