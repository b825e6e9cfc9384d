use ber_core::{BerFault, Reader, Writer, element_length};
use ber_shape::Element;

/// The name of a side: VisibleString of 3 to 16 characters.
pub(crate) struct AuthorityIdentifier;

impl<'a> Element<'a> for AuthorityIdentifier {
    ghost use Rattle.std.specs.Prelude.{ℕ, List, refl};
    ghost use Rattle.bind_pdu.specs.Binding.{authority_identifier};

    type Value = &'a [u8];

    ghost Seen = { List ℕ };

    ghost shape = { authority_identifier };

    ghost is_shallow = { refl };

    ghost seen = { λ name. name.now };

    fn read(reader: &mut Reader<'a>) -> Result<&'a [u8], BerFault> {
        reader.visible(&[0x1a], 3, 16)
    }

    #[tactic(auto, using(ber_core::specs::Parts::lengths))]
    fn size(name: &&'a [u8]) -> usize {
        element_length(&[0x1a], name.len())
    }

    fn write(name: &&'a [u8], writer: &mut Writer) {
        writer.octet_string(&[0x1a], name);
    }
}
