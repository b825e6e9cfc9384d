use ber_core::{BerFault, Reader, Writer};
use ber_shape::{Element, Members, Pdu, read_within, size_within, write_within};
use cds_time::Cds;
use sle_common::{ConditionalTime, Credentials, Gvcid, InvokeId};

/// START of return channel frames (CCSDS 911.2-B, annex A): a SEQUENCE under the context tag 0.
#[derive(Clone, Copy, Debug, PartialEq, Eq)]
pub struct RcfStart<'a> {
    pub credentials: Credentials<'a>,
    pub invoke: u16,
    /// Frames from this earth receive time on, where one is given.
    pub start: Option<Cds>,
    /// Frames up to this earth receive time, where one is given.
    pub stop: Option<Cds>,
    /// The channel whose frames are asked for.
    pub channel: Gvcid,
}

impl<'a> Members<'a> for RcfStart<'a> {
    ghost use Rattle.std.specs.Prelude.{refl};
    ghost use Rattle.return_pdu.specs.Starting.{RcfStartContent, rcf_start_fields};
    ghost use Rattle.return_pdu.specs.Seen.{rcf_start_of};

    type Value = RcfStart<'a>;

    ghost Seen = { RcfStartContent };

    ghost shape = { rcf_start_fields };

    ghost is_shallow = { refl };

    ghost seen = { rcf_start_of };

    fn read(reader: &mut Reader<'a>) -> Result<RcfStart<'a>, BerFault> {
        Ok(RcfStart {
            credentials: Credentials::read(reader)?,
            invoke: InvokeId::read(reader)?,
            start: ConditionalTime::read(reader)?,
            stop: ConditionalTime::read(reader)?,
            channel: read_within::<Gvcid>(&[0x30], reader)?,
        })
    }

    #[tactic(auto, using(ber_core::specs::Parts::lengths))]
    fn size(value: &RcfStart<'a>) -> usize {
        Credentials::size(&value.credentials)
            + InvokeId::size(&value.invoke)
            + ConditionalTime::size(&value.start)
            + ConditionalTime::size(&value.stop)
            + size_within::<Gvcid>(&[0x30], &value.channel)
    }

    #[tactic(auto, unfolding(ber_core::specs::Spelling::canonical))]
    fn write(value: &RcfStart<'a>, writer: &mut Writer) {
        Credentials::write(&value.credentials, writer);
        InvokeId::write(&value.invoke, writer);
        ConditionalTime::write(&value.start, writer);
        ConditionalTime::write(&value.stop, writer);
        write_within::<Gvcid>(&[0x30], &value.channel, writer);
    }
}

impl<'a> Pdu<'a> for RcfStart<'a> {
    ghost use Rattle.std.specs.Prelude.{◌≡◌, refl, [], ◌∷◌};

    ghost tag = { 0xa0 ∷ [] };

    ghost is_tag = { refl };

    ghost is_small = { refl };

    fn identifier() -> &'static [u8]
        ensures { result.now ≡ 0xa0 ∷ [] }
    {
        &[0xa0]
    }
}
