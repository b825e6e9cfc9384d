use ber_core::{BerFault, Reader, Writer, element_length};
use ber_shape::Element;

/// A frame: 1 to 65536 octets (this product's own).
pub(crate) struct FrameOctets;

impl<'a> Element<'a> for FrameOctets {
    ghost use Rattle.std.specs.Prelude.{ℕ, List, refl};
    ghost use Rattle.return_pdu.specs.Frames.{frame_octets};

    type Value = &'a [u8];

    ghost Seen = { List ℕ };

    ghost shape = { frame_octets };

    ghost is_shallow = { refl };

    ghost seen = { λ octets. octets.now };

    #[inline(always)]
    fn read(reader: &mut Reader<'a>) -> Result<&'a [u8], BerFault> {
        reader.octet_string(&[0x04], 1, 65536)
    }

    #[tactic(auto, using(ber_core::specs::Parts::lengths))]
    fn size(value: &&'a [u8]) -> usize {
        element_length(&[0x04], value.len())
    }

    fn write(value: &&'a [u8], writer: &mut Writer) {
        writer.octet_string(&[0x04], value);
    }
}
