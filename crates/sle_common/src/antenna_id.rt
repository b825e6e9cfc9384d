use ber_core::{BerFault, Reader, Writer, element_length};
use ber_shape::Element;

/// The antenna that received a frame (CCSDS 911.1-B, annex A).
#[derive(Clone, Copy, Debug, PartialEq, Eq)]
pub enum AntennaId<'a> {
    /// Under the context tag 0, the content of an OBJECT IDENTIFIER.
    Global(&'a [u8]),
    /// Under the context tag 1, 1 to 16 octets.
    Local(&'a [u8]),
}

impl<'a> Element<'a> for AntennaId<'a> {
    ghost use Rattle.std.specs.Prelude.{refl};
    ghost use Rattle.sle_common.specs.Antenna.{Antenna, antenna, antenna_of};

    type Value = AntennaId<'a>;

    ghost Seen = { Antenna };

    ghost shape = { antenna };

    ghost is_shallow = { refl };

    ghost seen = { antenna_of };

    #[inline(always)]
    fn read(reader: &mut Reader<'a>) -> Result<AntennaId<'a>, BerFault> {
        if reader.next_is(&[0x81]) {
            let octets = reader.octet_string(&[0x81], 1, 16)?;
            return Ok(AntennaId::Local(octets));
        }
        let octets = reader.object_id(&[0x80])?;
        Ok(AntennaId::Global(octets))
    }

    #[tactic(auto, using(ber_core::specs::Parts::lengths))]
    fn size(value: &AntennaId<'a>) -> usize {
        match value {
            AntennaId::Global(octets) => element_length(&[0x80], octets.len()),
            AntennaId::Local(octets) => element_length(&[0x81], octets.len()),
        }
    }

    fn write(value: &AntennaId<'a>, writer: &mut Writer) {
        match value {
            AntennaId::Global(octets) => writer.octet_string(&[0x80], octets),
            AntennaId::Local(octets) => writer.octet_string(&[0x81], octets),
        }
    }
}
