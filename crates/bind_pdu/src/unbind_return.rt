use ber_core::{BerFault, Reader, Writer, element_length};
use ber_shape::{Element, Members, Pdu};
use sle_common::Credentials;

/// The return of UNBIND, which is always positive (CCSDS 911.1-B, annex A).
#[derive(Clone, Copy, Debug, PartialEq, Eq)]
pub struct UnbindReturn<'a> {
    pub credentials: Credentials<'a>,
}

impl<'a> Members<'a> for UnbindReturn<'a> {
    ghost use Rattle.std.specs.Prelude.{refl};
    ghost use Rattle.bind_pdu.specs.Unbinding.{UnbindReturnContent, unbind_return_fields};
    ghost use Rattle.bind_pdu.specs.Seen.{unbind_return_of};

    type Value = UnbindReturn<'a>;

    ghost Seen = { UnbindReturnContent };

    ghost shape = { unbind_return_fields };

    ghost is_shallow = { refl };

    ghost seen = { unbind_return_of };

    fn read(reader: &mut Reader<'a>) -> Result<UnbindReturn<'a>, BerFault> {
        let credentials = Credentials::read(reader)?;
        reader.null(&[0x80])?;
        Ok(UnbindReturn { credentials })
    }

    #[tactic(auto, using(ber_core::specs::Parts::lengths))]
    fn size(answer: &UnbindReturn<'a>) -> usize {
        Credentials::size(&answer.credentials) + element_length(&[0x80], 0)
    }

    #[tactic(auto, unfolding(ber_core::specs::Spelling::canonical))]
    fn write(answer: &UnbindReturn<'a>, writer: &mut Writer) {
        Credentials::write(&answer.credentials, writer);
        writer.null(&[0x80]);
    }
}

impl<'a> Pdu<'a> for UnbindReturn<'a> {
    ghost use Rattle.std.specs.Prelude.{◌≡◌, refl, [], ◌∷◌};

    ghost tag = { 0xbf ∷ 0x67 ∷ [] };

    ghost is_tag = { refl };

    ghost is_small = { refl };

    fn identifier() -> &'static [u8]
        ensures { result.now ≡ 0xbf ∷ 0x67 ∷ [] }
    {
        &[0xbf, 0x67]
    }
}
