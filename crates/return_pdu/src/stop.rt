use ber_core::{BerFault, Reader, Writer};
use ber_shape::{Element, Members, Pdu};
use sle_common::{Credentials, InvokeId};

/// STOP (CCSDS 911.1-B, annex A): a SEQUENCE under the context tag 2.
#[derive(Clone, Copy, Debug, PartialEq, Eq)]
pub struct Stop<'a> {
    pub credentials: Credentials<'a>,
    pub invoke: u16,
}

impl<'a> Members<'a> for Stop<'a> {
    ghost use Rattle.std.specs.Prelude.{refl};
    ghost use Rattle.return_pdu.specs.Stopping.{StopContent, stop_fields};
    ghost use Rattle.return_pdu.specs.Seen.{stop_of};

    type Value = Stop<'a>;

    ghost Seen = { StopContent };

    ghost shape = { stop_fields };

    ghost is_shallow = { refl };

    ghost seen = { stop_of };

    fn read(reader: &mut Reader<'a>) -> Result<Stop<'a>, BerFault> {
        Ok(Stop {
            credentials: Credentials::read(reader)?,
            invoke: InvokeId::read(reader)?,
        })
    }

    #[tactic(auto, using(ber_core::specs::Parts::lengths))]
    fn size(value: &Stop<'a>) -> usize {
        Credentials::size(&value.credentials) + InvokeId::size(&value.invoke)
    }

    #[tactic(auto, unfolding(ber_core::specs::Spelling::canonical))]
    fn write(value: &Stop<'a>, writer: &mut Writer) {
        Credentials::write(&value.credentials, writer);
        InvokeId::write(&value.invoke, writer);
    }
}

impl<'a> Pdu<'a> for Stop<'a> {
    ghost use Rattle.std.specs.Prelude.{◌≡◌, refl, [], ◌∷◌};

    ghost tag = { 0xa2 ∷ [] };

    ghost is_tag = { refl };

    ghost is_small = { refl };

    fn identifier() -> &'static [u8]
        ensures { result.now ≡ 0xa2 ∷ [] }
    {
        &[0xa2]
    }
}
