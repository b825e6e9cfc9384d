use crate::number_range::{GREATEST, LEAST};
use ber_core::{BerFault, Reader, Writer, element_length, integer_length};
use ber_shape::{Element, Members, Pdu};
use sle_common::{Credentials, InvokeId};

/// The return of STOP (CCSDS 911.1-B, annex A): a SEQUENCE under the context tag 3.
#[derive(Clone, Copy, Debug, PartialEq, Eq)]
pub struct StopReturn<'a> {
    pub credentials: Credentials<'a>,
    pub invoke: u16,
    /// That the service stopped, or a diagnostic that all operations share: an INTEGER of at most
    /// 64 bits, signed or unsigned.
    pub result: Result<(), i128>,
}

impl<'a> Members<'a> for StopReturn<'a> {
    ghost use Rattle.std.specs.Prelude.{refl};
    ghost use Rattle.return_pdu.specs.Stopping.{StopReturnContent, stop_return_fields};
    ghost use Rattle.return_pdu.specs.Seen.{stop_return_of};

    type Value = StopReturn<'a>;

    ghost Seen = { StopReturnContent };

    ghost shape = { stop_return_fields };

    ghost is_shallow = { refl };

    ghost seen = { stop_return_of };

    fn read(reader: &mut Reader<'a>) -> Result<StopReturn<'a>, BerFault> {
        Ok(StopReturn {
            credentials: Credentials::read(reader)?,
            invoke: InvokeId::read(reader)?,
            result: StopResult::read(reader)?,
        })
    }

    #[tactic(auto, using(ber_core::specs::Parts::lengths))]
    fn size(value: &StopReturn<'a>) -> usize {
        Credentials::size(&value.credentials)
            + InvokeId::size(&value.invoke)
            + StopResult::size(&value.result)
    }

    #[tactic(auto, unfolding(ber_core::specs::Spelling::canonical))]
    fn write(value: &StopReturn<'a>, writer: &mut Writer) {
        Credentials::write(&value.credentials, writer);
        InvokeId::write(&value.invoke, writer);
        StopResult::write(&value.result, writer);
    }
}

impl<'a> Pdu<'a> for StopReturn<'a> {
    ghost use Rattle.std.specs.Prelude.{◌≡◌, refl, [], ◌∷◌};

    ghost tag = { 0xa3 ∷ [] };

    ghost is_tag = { refl };

    ghost is_small = { refl };

    fn identifier() -> &'static [u8]
        ensures { result.now ≡ 0xa3 ∷ [] }
    {
        &[0xa3]
    }
}

/// What a STOP is answered: [0] NULL where the service stopped, [1] INTEGER the diagnostic.
struct StopResult;

impl<'a> Element<'a> for StopResult {
    ghost use Rattle.std.specs.Prelude.{ℤ, Result, refl};
    ghost use Rattle.return_pdu.specs.Stopping.{stop_result};

    type Value = Result<(), i128>;

    ghost Seen = { Result (Unit {0}) ℤ };

    ghost shape = { stop_result };

    ghost is_shallow = { refl };

    ghost seen = { λ result. result };

    fn read(reader: &mut Reader<'a>) -> Result<Result<(), i128>, BerFault> {
        if reader.next_is(&[0x81]) {
            let diagnostic = reader.integer(&[0x81], LEAST, GREATEST)?;
            return Ok(Err(diagnostic));
        }
        reader.null(&[0x80])?;
        Ok(Ok(()))
    }

    #[tactic(auto, using(ber_core::specs::Parts::lengths))]
    fn size(value: &Result<(), i128>) -> usize {
        match value {
            Ok(()) => element_length(&[0x80], 0),
            Err(diagnostic) => element_length(&[0x81], integer_length(*diagnostic)),
        }
    }

    fn write(value: &Result<(), i128>, writer: &mut Writer) {
        match value {
            Ok(()) => writer.null(&[0x80]),
            Err(diagnostic) => writer.integer(&[0x81], *diagnostic),
        }
    }
}
