use crate::unsigned_long::UnsignedLong;
use ber_core::{BerFault, Reader, Writer, element_length};
use ber_shape::{Element, Members, read_within, size_within, write_within};
use cds_time::Cds;
use sle_common::Time;

/// The identification of a CLTU, and when its radiation stopped.
struct Radiated;

impl<'a> Members<'a> for Radiated {
    ghost use Rattle.std.specs.Prelude.{ℕ, refl};
    ghost use Rattle.cds_time.specs.declared.cds.Cds.{Cds};
    ghost use Rattle.fcltu_pdu.specs.Processed.{ok_fields};

    type Value = (u32, Cds);

    ghost Seen = { ℕ × Cds };

    ghost shape = { ok_fields };

    ghost is_shallow = { refl };

    ghost seen = { λ ok. ok };

    fn read(reader: &mut Reader<'a>) -> Result<(u32, Cds), BerFault> {
        let id = UnsignedLong::read(reader)?;
        let stop = Time::read(reader)?;
        Ok((id, stop))
    }

    #[tactic(auto, using(ber_core::specs::Parts::lengths))]
    fn size(value: &(u32, Cds)) -> usize {
        UnsignedLong::size(&value.0) + Time::size(&value.1)
    }

    #[tactic(auto, unfolding(ber_core::specs::Spelling::canonical))]
    fn write(value: &(u32, Cds), writer: &mut Writer) {
        UnsignedLong::write(&value.0, writer);
        Time::write(&value.1, writer);
    }
}

/// The last CLTU that was radiated: [0] NULL before the first, [1] SEQUENCE.
pub(crate) struct LastOk;

impl<'a> Element<'a> for LastOk {
    ghost use Rattle.std.specs.Prelude.{ℕ, Option, refl};
    ghost use Rattle.cds_time.specs.declared.cds.Cds.{Cds};
    ghost use Rattle.fcltu_pdu.specs.Processed.{last_ok};

    type Value = Option<(u32, Cds)>;

    ghost Seen = { Option (ℕ × Cds) };

    ghost shape = { last_ok };

    ghost is_shallow = { refl };

    ghost seen = { λ ok. ok };

    fn read(reader: &mut Reader<'a>) -> Result<Option<(u32, Cds)>, BerFault> {
        if reader.next_is(&[0xa1]) {
            let radiated = read_within::<Radiated>(&[0xa1], reader)?;
            return Ok(Some(radiated));
        }
        reader.null(&[0x80])?;
        Ok(None)
    }

    #[tactic(auto, using(ber_core::specs::Parts::lengths))]
    fn size(value: &Option<(u32, Cds)>) -> usize {
        match value {
            None => element_length(&[0x80], 0),
            Some(radiated) => size_within::<Radiated>(&[0xa1], radiated),
        }
    }

    fn write(value: &Option<(u32, Cds)>, writer: &mut Writer) {
        match value {
            None => writer.null(&[0x80]),
            Some(radiated) => write_within::<Radiated>(&[0xa1], radiated, writer),
        }
    }
}
