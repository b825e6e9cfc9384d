use ber_core::{BerFault, Reader, Writer};
use ber_shape::{Element, Members, Pdu};
use sle_common::{Confirmation, Credentials, Diagnostic, InvokeId};

/// The return of SCHEDULE-STATUS-REPORT (CCSDS 911.1-B, annex A): a SEQUENCE under the context tag
/// 5.
#[derive(Clone, Copy, Debug, PartialEq, Eq)]
pub struct ScheduleReturn<'a> {
    pub credentials: Credentials<'a>,
    pub invoke: u16,
    /// That the reports are scheduled, or why not.
    pub result: Result<(), Diagnostic>,
}

impl<'a> Members<'a> for ScheduleReturn<'a> {
    ghost use Rattle.std.specs.Prelude.{refl};
    ghost use Rattle.return_pdu.specs.Scheduling.{ScheduleReturnContent, schedule_return_fields};
    ghost use Rattle.return_pdu.specs.Seen.{schedule_return_of};

    type Value = ScheduleReturn<'a>;

    ghost Seen = { ScheduleReturnContent };

    ghost shape = { schedule_return_fields };

    ghost is_shallow = { refl };

    ghost seen = { schedule_return_of };

    fn read(reader: &mut Reader<'a>) -> Result<ScheduleReturn<'a>, BerFault> {
        Ok(ScheduleReturn {
            credentials: Credentials::read(reader)?,
            invoke: InvokeId::read(reader)?,
            result: Confirmation::read(reader)?,
        })
    }

    #[tactic(auto, using(ber_core::specs::Parts::lengths))]
    fn size(value: &ScheduleReturn<'a>) -> usize {
        Credentials::size(&value.credentials)
            + InvokeId::size(&value.invoke)
            + Confirmation::size(&value.result)
    }

    #[tactic(auto, unfolding(ber_core::specs::Spelling::canonical))]
    fn write(value: &ScheduleReturn<'a>, writer: &mut Writer) {
        Credentials::write(&value.credentials, writer);
        InvokeId::write(&value.invoke, writer);
        Confirmation::write(&value.result, writer);
    }
}

impl<'a> Pdu<'a> for ScheduleReturn<'a> {
    ghost use Rattle.std.specs.Prelude.{◌≡◌, refl, [], ◌∷◌};

    ghost tag = { 0xa5 ∷ [] };

    ghost is_tag = { refl };

    ghost is_small = { refl };

    fn identifier() -> &'static [u8]
        ensures { result.now ≡ 0xa5 ∷ [] }
    {
        &[0xa5]
    }
}
