use ber_core::{BerFault, Reader, Writer};
use ber_shape::{Element, Members, Pdu};
use sle_common::{Credentials, InvokeId, ReportKind};

/// SCHEDULE-STATUS-REPORT (CCSDS 911.1-B, annex A): a SEQUENCE under the context tag 4.
#[derive(Clone, Copy, Debug, PartialEq, Eq)]
pub struct Schedule<'a> {
    pub credentials: Credentials<'a>,
    pub invoke: u16,
    /// Which reports are asked for.
    pub report: ReportKind,
}

impl<'a> Members<'a> for Schedule<'a> {
    ghost use Rattle.std.specs.Prelude.{refl};
    ghost use Rattle.return_pdu.specs.Scheduling.{ScheduleContent, schedule_fields};
    ghost use Rattle.return_pdu.specs.Seen.{schedule_of};

    type Value = Schedule<'a>;

    ghost Seen = { ScheduleContent };

    ghost shape = { schedule_fields };

    ghost is_shallow = { refl };

    ghost seen = { schedule_of };

    fn read(reader: &mut Reader<'a>) -> Result<Schedule<'a>, BerFault> {
        Ok(Schedule {
            credentials: Credentials::read(reader)?,
            invoke: InvokeId::read(reader)?,
            report: ReportKind::read(reader)?,
        })
    }

    #[tactic(auto, using(ber_core::specs::Parts::lengths))]
    fn size(value: &Schedule<'a>) -> usize {
        Credentials::size(&value.credentials)
            + InvokeId::size(&value.invoke)
            + ReportKind::size(&value.report)
    }

    #[tactic(auto, unfolding(ber_core::specs::Spelling::canonical))]
    fn write(value: &Schedule<'a>, writer: &mut Writer) {
        Credentials::write(&value.credentials, writer);
        InvokeId::write(&value.invoke, writer);
        ReportKind::write(&value.report, writer);
    }
}

impl<'a> Pdu<'a> for Schedule<'a> {
    ghost use Rattle.std.specs.Prelude.{◌≡◌, refl, [], ◌∷◌};

    ghost tag = { 0xa4 ∷ [] };

    ghost is_tag = { refl };

    ghost is_small = { refl };

    fn identifier() -> &'static [u8]
        ensures { result.now ≡ 0xa4 ∷ [] }
    {
        &[0xa4]
    }
}
