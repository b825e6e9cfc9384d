use crate::unsigned_long::UnsignedLong;
use ber_core::{BerFault, Reader, Writer, element_length};
use ber_shape::{Element, Members, read_within, size_within, write_within};
use cds_time::Cds;
use sle_common::{ConditionalTime, Number};

/// The identification of a CLTU, when its radiation started, and its status.
struct Processed;

impl<'a> Members<'a> for Processed {
    ghost use Rattle.std.specs.Prelude.{refl};
    ghost use Rattle.fcltu_pdu.specs.Processed.{Processed as CltuProcessed, processed_fields};

    type Value = (u32, Option<Cds>, i128);

    ghost Seen = { CltuProcessed };

    ghost shape = { processed_fields };

    ghost is_shallow = { refl };

    ghost seen = { λ processed. processed };

    fn read(reader: &mut Reader<'a>) -> Result<(u32, Option<Cds>, i128), BerFault> {
        let id = UnsignedLong::read(reader)?;
        let start = ConditionalTime::read(reader)?;
        let status = Number::read(reader)?;
        Ok((id, start, status))
    }

    #[tactic(auto, using(ber_core::specs::Parts::lengths))]
    fn size(value: &(u32, Option<Cds>, i128)) -> usize {
        UnsignedLong::size(&value.0) + ConditionalTime::size(&value.1) + Number::size(&value.2)
    }

    #[tactic(auto, unfolding(ber_core::specs::Spelling::canonical))]
    fn write(value: &(u32, Option<Cds>, i128), writer: &mut Writer) {
        UnsignedLong::write(&value.0, writer);
        ConditionalTime::write(&value.1, writer);
        Number::write(&value.2, writer);
    }
}

/// The last CLTU that a provider took to radiate: [0] NULL before the first, [1] SEQUENCE.
pub(crate) struct LastProcessed;

impl<'a> Element<'a> for LastProcessed {
    ghost use Rattle.std.specs.Prelude.{Option, refl};
    ghost use Rattle.fcltu_pdu.specs.Processed.{Processed as CltuProcessed, last_processed};

    type Value = Option<(u32, Option<Cds>, i128)>;

    ghost Seen = { Option CltuProcessed };

    ghost shape = { last_processed };

    ghost is_shallow = { refl };

    ghost seen = { λ processed. processed };

    fn read(reader: &mut Reader<'a>) -> Result<Option<(u32, Option<Cds>, i128)>, BerFault> {
        if reader.next_is(&[0xa1]) {
            let processed = read_within::<Processed>(&[0xa1], reader)?;
            return Ok(Some(processed));
        }
        reader.null(&[0x80])?;
        Ok(None)
    }

    #[tactic(auto, using(ber_core::specs::Parts::lengths))]
    fn size(value: &Option<(u32, Option<Cds>, i128)>) -> usize {
        match value {
            None => element_length(&[0x80], 0),
            Some(processed) => size_within::<Processed>(&[0xa1], processed),
        }
    }

    fn write(value: &Option<(u32, Option<Cds>, i128)>, writer: &mut Writer) {
        match value {
            None => writer.null(&[0x80]),
            Some(processed) => write_within::<Processed>(&[0xa1], processed, writer),
        }
    }
}
