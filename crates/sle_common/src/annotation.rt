use ber_core::{BerFault, Reader, Writer, element_length};
use ber_shape::Element;

/// What a station notes of a frame (CCSDS 911.1-B, annex A): [0] NULL for nothing, [1] 1 to 128
/// octets.
pub struct Annotation;

impl<'a> Element<'a> for Annotation {
    ghost use Rattle.std.specs.Prelude.{ℕ, List, Option, option_map, refl};
    ghost use Rattle.sle_common.specs.Annotation.{annotation};

    type Value = Option<&'a [u8]>;

    ghost Seen = { Option (List ℕ) };

    ghost shape = { annotation };

    ghost is_shallow = { refl };

    ghost seen = { λ note. option_map (λ octets. octets.now) note };

    #[inline(always)]
    fn read(reader: &mut Reader<'a>) -> Result<Option<&'a [u8]>, BerFault> {
        if reader.next_is(&[0x81]) {
            let octets = reader.octet_string(&[0x81], 1, 128)?;
            return Ok(Some(octets));
        }
        reader.null(&[0x80])?;
        Ok(None)
    }

    #[tactic(auto, using(ber_core::specs::Parts::lengths))]
    fn size(value: &Option<&'a [u8]>) -> usize {
        match value {
            None => element_length(&[0x80], 0),
            Some(octets) => element_length(&[0x81], octets.len()),
        }
    }

    fn write(value: &Option<&'a [u8]>, writer: &mut Writer) {
        match value {
            None => writer.null(&[0x80]),
            Some(octets) => writer.octet_string(&[0x81], octets),
        }
    }
}
