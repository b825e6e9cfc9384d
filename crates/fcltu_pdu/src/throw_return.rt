use crate::unsigned_long::UnsignedLong;
use ber_core::{BerFault, Reader, Writer};
use ber_shape::{Element, Members, Pdu};
use sle_common::{Confirmation, Credentials, Diagnostic, InvokeId};

/// The return of THROW-EVENT (CCSDS 912.1-B, annex A): a SEQUENCE under the context tag 9.
#[derive(Clone, Copy, Debug, PartialEq, Eq)]
pub struct ThrowReturn<'a> {
    pub credentials: Credentials<'a>,
    pub invoke: u16,
    /// The number of the event's invocation.
    pub number: u32,
    /// That the event was taken, or why not.
    pub result: Result<(), Diagnostic>,
}

impl<'a> Members<'a> for ThrowReturn<'a> {
    ghost use Rattle.std.specs.Prelude.{refl};
    ghost use Rattle.fcltu_pdu.specs.Throw.{EventReturn, throw_return_fields, event_return_of};

    type Value = ThrowReturn<'a>;

    ghost Seen = { EventReturn };

    ghost shape = { throw_return_fields };

    ghost is_shallow = { refl };

    ghost seen = { event_return_of };

    fn read(reader: &mut Reader<'a>) -> Result<ThrowReturn<'a>, BerFault> {
        Ok(ThrowReturn {
            credentials: Credentials::read(reader)?,
            invoke: InvokeId::read(reader)?,
            number: UnsignedLong::read(reader)?,
            result: Confirmation::read(reader)?,
        })
    }

    #[tactic(auto, using(ber_core::specs::Parts::lengths))]
    fn size(value: &ThrowReturn<'a>) -> usize {
        Credentials::size(&value.credentials)
            + InvokeId::size(&value.invoke)
            + UnsignedLong::size(&value.number)
            + Confirmation::size(&value.result)
    }

    #[tactic(auto, unfolding(ber_core::specs::Spelling::canonical))]
    fn write(value: &ThrowReturn<'a>, writer: &mut Writer) {
        Credentials::write(&value.credentials, writer);
        InvokeId::write(&value.invoke, writer);
        UnsignedLong::write(&value.number, writer);
        Confirmation::write(&value.result, writer);
    }
}

impl<'a> Pdu<'a> for ThrowReturn<'a> {
    ghost use Rattle.std.specs.Prelude.{◌≡◌, refl, [], ◌∷◌};

    ghost tag = { 0xa9 ∷ [] };

    ghost is_tag = { refl };

    ghost is_small = { refl };

    fn identifier() -> &'static [u8]
        ensures { result.now ≡ 0xa9 ∷ [] }
    {
        &[0xa9]
    }
}
