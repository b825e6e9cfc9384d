use ber_core::{BerFault, Reader, Writer, element_length, integer_length};
use ber_shape::{Element, Members};

/// A channel of a spacecraft's frames.
#[derive(Clone, Copy, Debug, PartialEq, Eq)]
pub enum Channel {
    /// All frames of the master channel.
    Master,
    /// Those of one virtual channel, 0 to 63.
    Virtual(u8),
}

/// A global virtual channel identifier (CCSDS 911.2-B, annex A).
#[derive(Clone, Copy, Debug, PartialEq, Eq)]
pub struct Gvcid {
    /// 0 to 1023.
    pub spacecraft: u16,
    /// The transfer frame version number, 0 to 3.
    pub version: u8,
    pub channel: Channel,
}

impl<'a> Element<'a> for Channel {
    ghost use Rattle.std.specs.Prelude.{refl};
    ghost use Rattle.sle_common.specs.declared.gvcid.Channel.{Channel};
    ghost use Rattle.sle_common.specs.Gvcid.{channel};

    type Value = Channel;

    ghost Seen = { Channel };

    ghost shape = { channel };

    ghost is_shallow = { refl };

    ghost seen = { λ c. c };

    fn read(reader: &mut Reader<'a>) -> Result<Channel, BerFault> {
        if reader.next_is(&[0x81]) {
            let channel = reader.integer(&[0x81], 0, 63)?;
            return Ok(Channel::Virtual(channel as u8));
        }
        reader.null(&[0x80])?;
        Ok(Channel::Master)
    }

    #[tactic(auto, using(ber_core::specs::Parts::lengths))]
    fn size(value: &Channel) -> usize {
        match value {
            Channel::Master => element_length(&[0x80], 0),
            Channel::Virtual(channel) => {
                element_length(&[0x81], integer_length(i128::from(*channel)))
            }
        }
    }

    fn write(value: &Channel, writer: &mut Writer) {
        match value {
            Channel::Master => writer.null(&[0x80]),
            Channel::Virtual(channel) => writer.integer(&[0x81], i128::from(*channel)),
        }
    }
}

/// What stands in the SEQUENCE: spacecraft, version and channel.
impl<'a> Members<'a> for Gvcid {
    ghost use Rattle.std.specs.Prelude.{refl};
    ghost use Rattle.sle_common.specs.declared.gvcid.Gvcid.{Gvcid};
    ghost use Rattle.sle_common.specs.Gvcid.{gvcid};

    type Value = Gvcid;

    ghost Seen = { Gvcid };

    ghost shape = { gvcid };

    ghost is_shallow = { refl };

    ghost seen = { λ g. g };

    fn read(reader: &mut Reader<'a>) -> Result<Gvcid, BerFault> {
        let spacecraft = reader.integer(&[0x02], 0, 1023)?;
        let version = reader.integer(&[0x02], 0, 3)?;
        let channel = Channel::read(reader)?;
        Ok(Gvcid {
            spacecraft: spacecraft as u16,
            version: version as u8,
            channel,
        })
    }

    #[tactic(auto, using(ber_core::specs::Parts::lengths))]
    fn size(value: &Gvcid) -> usize {
        element_length(&[0x02], integer_length(i128::from(value.spacecraft)))
            + element_length(&[0x02], integer_length(i128::from(value.version)))
            + Channel::size(&value.channel)
    }

    #[tactic(auto, unfolding(ber_core::specs::Spelling::canonical))]
    fn write(value: &Gvcid, writer: &mut Writer) {
        writer.integer(&[0x02], i128::from(value.spacecraft));
        writer.integer(&[0x02], i128::from(value.version));
        Channel::write(&value.channel, writer);
    }
}
