use crate::start_answer::StartAnswer;
use ber_core::{BerFault, Reader, Writer};
use ber_shape::{Element, Members, Pdu};
use cds_time::Cds;
use sle_common::{Credentials, Diagnostic, InvokeId};

/// The return of START (CCSDS 912.1-B, annex A): a SEQUENCE under the context tag 1.
#[derive(Clone, Copy, Debug, PartialEq, Eq)]
pub struct CltuStartReturn<'a> {
    pub credentials: Credentials<'a>,
    pub invoke: u16,
    /// The time at which radiation may start and, where it is known, that at which it stops; or why
    /// there is none.
    pub result: Result<(Cds, Option<Cds>), Diagnostic>,
}

impl<'a> Members<'a> for CltuStartReturn<'a> {
    ghost use Rattle.std.specs.Prelude.{refl};
    ghost use Rattle.fcltu_pdu.specs.Start.{StartReturn, start_return_fields, start_return_of};

    type Value = CltuStartReturn<'a>;

    ghost Seen = { StartReturn };

    ghost shape = { start_return_fields };

    ghost is_shallow = { refl };

    ghost seen = { start_return_of };

    fn read(reader: &mut Reader<'a>) -> Result<CltuStartReturn<'a>, BerFault> {
        Ok(CltuStartReturn {
            credentials: Credentials::read(reader)?,
            invoke: InvokeId::read(reader)?,
            result: StartAnswer::read(reader)?,
        })
    }

    #[tactic(auto, using(ber_core::specs::Parts::lengths))]
    fn size(value: &CltuStartReturn<'a>) -> usize {
        Credentials::size(&value.credentials)
            + InvokeId::size(&value.invoke)
            + StartAnswer::size(&value.result)
    }

    #[tactic(auto, unfolding(ber_core::specs::Spelling::canonical))]
    fn write(value: &CltuStartReturn<'a>, writer: &mut Writer) {
        Credentials::write(&value.credentials, writer);
        InvokeId::write(&value.invoke, writer);
        StartAnswer::write(&value.result, writer);
    }
}

impl<'a> Pdu<'a> for CltuStartReturn<'a> {
    ghost use Rattle.std.specs.Prelude.{◌≡◌, refl, [], ◌∷◌};

    ghost tag = { 0xa1 ∷ [] };

    ghost is_tag = { refl };

    ghost is_small = { refl };

    fn identifier() -> &'static [u8]
        ensures { result.now ≡ 0xa1 ∷ [] }
    {
        &[0xa1]
    }
}
