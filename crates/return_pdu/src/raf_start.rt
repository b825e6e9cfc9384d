use ber_core::{BerFault, Reader, Writer};
use ber_shape::{Element, Members, Pdu};
use cds_time::Cds;
use sle_common::{ConditionalTime, Credentials, InTable, InvokeId};
use sle_numbers::RequestedFrameQuality;

type Quality = InTable<RequestedFrameQuality>;

/// START of return all frames (CCSDS 911.1-B, annex A): a SEQUENCE under the context tag 0.
#[derive(Clone, Copy, Debug, PartialEq, Eq)]
pub struct RafStart<'a> {
    pub credentials: Credentials<'a>,
    pub invoke: u16,
    /// Frames from this earth receive time on, where one is given.
    pub start: Option<Cds>,
    /// Frames up to this earth receive time, where one is given.
    pub stop: Option<Cds>,
    /// The frames that are asked for.
    pub quality: RequestedFrameQuality,
}

impl<'a> Members<'a> for RafStart<'a> {
    ghost use Rattle.std.specs.Prelude.{refl};
    ghost use Rattle.return_pdu.specs.Starting.{RafStartContent, raf_start_fields};
    ghost use Rattle.return_pdu.specs.Seen.{raf_start_of};

    type Value = RafStart<'a>;

    ghost Seen = { RafStartContent };

    ghost shape = { raf_start_fields };

    ghost is_shallow = { refl };

    ghost seen = { raf_start_of };

    fn read(reader: &mut Reader<'a>) -> Result<RafStart<'a>, BerFault> {
        Ok(RafStart {
            credentials: Credentials::read(reader)?,
            invoke: InvokeId::read(reader)?,
            start: ConditionalTime::read(reader)?,
            stop: ConditionalTime::read(reader)?,
            quality: Quality::read(reader)?,
        })
    }

    #[tactic(auto, using(ber_core::specs::Parts::lengths))]
    fn size(value: &RafStart<'a>) -> usize {
        Credentials::size(&value.credentials)
            + InvokeId::size(&value.invoke)
            + ConditionalTime::size(&value.start)
            + ConditionalTime::size(&value.stop)
            + Quality::size(&value.quality)
    }

    #[tactic(auto, unfolding(ber_core::specs::Spelling::canonical))]
    fn write(value: &RafStart<'a>, writer: &mut Writer) {
        Credentials::write(&value.credentials, writer);
        InvokeId::write(&value.invoke, writer);
        ConditionalTime::write(&value.start, writer);
        ConditionalTime::write(&value.stop, writer);
        Quality::write(&value.quality, writer);
    }
}

impl<'a> Pdu<'a> for RafStart<'a> {
    ghost use Rattle.std.specs.Prelude.{◌≡◌, refl, [], ◌∷◌};

    ghost tag = { 0xa0 ∷ [] };

    ghost is_tag = { refl };

    ghost is_small = { refl };

    fn identifier() -> &'static [u8]
        ensures { result.now ≡ 0xa0 ∷ [] }
    {
        &[0xa0]
    }
}
