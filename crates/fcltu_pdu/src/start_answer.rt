use ber_core::{BerFault, Reader, Writer};
use ber_shape::{
    Element, Members, read_around, read_within, size_around, size_within, write_around,
    write_within,
};
use cds_time::Cds;
use sle_common::{ConditionalTime, Diagnostic, Time};

/// The time at which radiation may start, and that at which it stops, where one is known.
struct Window;

impl<'a> Members<'a> for Window {
    ghost use Rattle.std.specs.Prelude.{Option, refl};
    ghost use Rattle.cds_time.specs.declared.cds.Cds.{Cds};
    ghost use Rattle.fcltu_pdu.specs.Answer.{window_fields};

    type Value = (Cds, Option<Cds>);

    ghost Seen = { Cds × Option Cds };

    ghost shape = { window_fields };

    ghost is_shallow = { refl };

    ghost seen = { λ times. times };

    fn read(reader: &mut Reader<'a>) -> Result<(Cds, Option<Cds>), BerFault> {
        let start = Time::read(reader)?;
        let stop = ConditionalTime::read(reader)?;
        Ok((start, stop))
    }

    #[tactic(auto, using(ber_core::specs::Parts::lengths))]
    fn size(value: &(Cds, Option<Cds>)) -> usize {
        Time::size(&value.0) + ConditionalTime::size(&value.1)
    }

    #[tactic(auto, unfolding(ber_core::specs::Spelling::canonical))]
    fn write(value: &(Cds, Option<Cds>), writer: &mut Writer) {
        Time::write(&value.0, writer);
        ConditionalTime::write(&value.1, writer);
    }
}

/// What a START is answered: [0] SEQUENCE of the times, [1] around why there is no radiation.
pub(crate) struct StartAnswer;

impl<'a> Element<'a> for StartAnswer {
    ghost use Rattle.std.specs.Prelude.{Option, Result, refl};
    ghost use Rattle.cds_time.specs.declared.cds.Cds.{Cds};
    ghost use Rattle.sle_common.specs.declared.diagnostic.Diagnostic.{Diagnostic};
    ghost use Rattle.fcltu_pdu.specs.Answer.{start_answer};

    type Value = Result<(Cds, Option<Cds>), Diagnostic>;

    ghost Seen = { Result (Cds × Option Cds) Diagnostic };

    ghost shape = { start_answer };

    ghost is_shallow = { refl };

    ghost seen = { λ result. result };

    fn read(reader: &mut Reader<'a>) -> Result<Result<(Cds, Option<Cds>), Diagnostic>, BerFault> {
        if reader.next_is(&[0xa1]) {
            let diagnostic = read_around::<Diagnostic>(&[0xa1], reader)?;
            return Ok(Err(diagnostic));
        }
        let times = read_within::<Window>(&[0xa0], reader)?;
        Ok(Ok(times))
    }

    fn size(value: &Result<(Cds, Option<Cds>), Diagnostic>) -> usize {
        match value {
            Ok(times) => size_within::<Window>(&[0xa0], times),
            Err(diagnostic) => size_around::<Diagnostic>(&[0xa1], diagnostic),
        }
    }

    fn write(value: &Result<(Cds, Option<Cds>), Diagnostic>, writer: &mut Writer) {
        match value {
            Ok(times) => write_within::<Window>(&[0xa0], times, writer),
            Err(diagnostic) => write_around::<Diagnostic>(&[0xa1], diagnostic, writer),
        }
    }
}
