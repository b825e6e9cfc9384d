use crate::element::Element;
use ber_core::{BerFault, Reader, Writer, element_length};

/// OCTET STRING of `LEAST` to `MOST` octets (X.690 8.7).
pub struct OctetString<const LEAST: usize, const MOST: usize>;

impl<'a, const LEAST: usize, const MOST: usize> Element<'a> for OctetString<LEAST, MOST> {
    ghost use Rattle.std.specs.Prelude.{ℕ, List, [], ◌∷◌, refl};
    ghost use Rattle.ber_shape.specs.Content.{octet_string};
    ghost use Rattle.ber_shape.specs.Element.{simple};

    type Value = &'a [u8];

    ghost Seen = { List ℕ };

    ghost shape = { simple (0x04 ∷ []) (octet_string LEAST MOST) refl };

    ghost is_shallow = { refl };

    ghost seen = { λ octets. octets.now };

    fn read(reader: &mut Reader<'a>) -> Result<&'a [u8], BerFault> {
        reader.octet_string(&[0x04], LEAST, MOST)
    }

    #[tactic(auto, using(ber_core::specs::Parts::lengths))]
    fn size(value: &&'a [u8]) -> usize {
        element_length(&[0x04], value.len())
    }

    fn write(value: &&'a [u8], writer: &mut Writer) {
        writer.octet_string(&[0x04], value);
    }
}
