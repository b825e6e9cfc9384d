use crate::continuity::Continuity;
use crate::frame_fields::FrameFields;
use crate::frame_octets::FrameOctets;
use ber_core::{BerFault, Reader, Writer};
use ber_shape::{Element, Members};
use sle_common::{Annotation, AntennaId, Credentials, InTable, Time};
use sle_numbers::FrameQuality;

type Quality = InTable<FrameQuality>;

/// A frame of RAF, which has a quality (CCSDS 911.1-B, annex A).
pub(crate) struct RafFrameFields;

impl<'a> Members<'a> for RafFrameFields {
    ghost use Rattle.std.specs.Prelude.{refl};
    ghost use Rattle.return_pdu.specs.Frames.{FrameContent, raf_frame_fields};
    ghost use Rattle.return_pdu.specs.Seen.{frame_of};

    type Value = FrameFields<'a>;

    ghost Seen = { FrameContent };

    ghost shape = { raf_frame_fields };

    ghost is_shallow = { refl };

    ghost seen = { frame_of };

    #[inline(always)]
    fn read(reader: &mut Reader<'a>) -> Result<FrameFields<'a>, BerFault> {
        Ok(FrameFields {
            credentials: Credentials::read(reader)?,
            ert: Time::read(reader)?,
            antenna: AntennaId::read(reader)?,
            continuity: Continuity::read(reader)?,
            quality: Some(Quality::read(reader)?),
            note: Annotation::read(reader)?,
            octets: FrameOctets::read(reader)?,
        })
    }

    #[tactic(auto, using(ber_core::specs::Parts::lengths))]
    fn size(value: &FrameFields<'a>) -> usize {
        Credentials::size(&value.credentials)
            + Time::size(&value.ert)
            + AntennaId::size(&value.antenna)
            + Continuity::size(&value.continuity)
            + Quality::size(&value.quality.unwrap_or(FrameQuality::Good))
            + Annotation::size(&value.note)
            + FrameOctets::size(&value.octets)
    }

    #[tactic(auto, unfolding(ber_core::specs::Spelling::canonical))]
    fn write(value: &FrameFields<'a>, writer: &mut Writer) {
        Credentials::write(&value.credentials, writer);
        Time::write(&value.ert, writer);
        AntennaId::write(&value.antenna, writer);
        Continuity::write(&value.continuity, writer);
        Quality::write(&value.quality.unwrap_or(FrameQuality::Good), writer);
        Annotation::write(&value.note, writer);
        FrameOctets::write(&value.octets, writer);
    }
}
