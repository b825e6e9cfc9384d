use crate::unsigned_long::UnsignedLong;
use ber_core::{BerFault, Reader, Writer};
use ber_shape::{Element, Members, Pdu};
use sle_common::{Credentials, InvokeId};

/// START of the forward CLTU service (CCSDS 912.1-B, annex A): a SEQUENCE under the context tag 0.
#[derive(Clone, Copy, Debug, PartialEq, Eq)]
pub struct CltuStart<'a> {
    pub credentials: Credentials<'a>,
    pub invoke: u16,
    /// The identification that the first CLTU will have.
    pub first: u32,
}

impl<'a> Members<'a> for CltuStart<'a> {
    ghost use Rattle.std.specs.Prelude.{refl};
    ghost use Rattle.fcltu_pdu.specs.Start.{Start, start_fields, start_of};

    type Value = CltuStart<'a>;

    ghost Seen = { Start };

    ghost shape = { start_fields };

    ghost is_shallow = { refl };

    ghost seen = { start_of };

    fn read(reader: &mut Reader<'a>) -> Result<CltuStart<'a>, BerFault> {
        Ok(CltuStart {
            credentials: Credentials::read(reader)?,
            invoke: InvokeId::read(reader)?,
            first: UnsignedLong::read(reader)?,
        })
    }

    #[tactic(auto, using(ber_core::specs::Parts::lengths))]
    fn size(value: &CltuStart<'a>) -> usize {
        Credentials::size(&value.credentials)
            + InvokeId::size(&value.invoke)
            + UnsignedLong::size(&value.first)
    }

    #[tactic(auto, unfolding(ber_core::specs::Spelling::canonical))]
    fn write(value: &CltuStart<'a>, writer: &mut Writer) {
        Credentials::write(&value.credentials, writer);
        InvokeId::write(&value.invoke, writer);
        UnsignedLong::write(&value.first, writer);
    }
}

impl<'a> Pdu<'a> for CltuStart<'a> {
    ghost use Rattle.std.specs.Prelude.{◌≡◌, refl, [], ◌∷◌};

    ghost tag = { 0xa0 ∷ [] };

    ghost is_tag = { refl };

    ghost is_small = { refl };

    fn identifier() -> &'static [u8]
        ensures { result.now ≡ 0xa0 ∷ [] }
    {
        &[0xa0]
    }
}
