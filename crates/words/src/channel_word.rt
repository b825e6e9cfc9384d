// Words that are channels.

use crate::last::Last;
use crate::number::{Octet, Short};
use crate::then::Then;
use crate::unread::Unread;
use crate::word::Word;
use crate::words_row::{Words, WriteWords};
use sle_common::{Channel, Gvcid};
use std::alloc::{AllocError, Global};

const STAR: &[u8] = b"*";

type VirtualChannel = Octet<0, 63>;

/// A virtual channel, 0 to 63, or `*` for the master channel.
pub struct OfMaster;

impl Word for OfMaster {
    ghost use Rattle.sle_common.specs.declared.gvcid.Channel.{Channel};
    ghost use Rattle.words.specs.Channels.{channel};

    type Value = Channel;

    ghost Seen = { Channel };

    ghost kind = { channel };

    ghost seen = { λ value. value };

    fn read(alloc: Global, word: &[u8]) -> Result<Channel, Unread> {
        if word == STAR {
            return Ok(Channel::Master);
        }
        Ok(Channel::Virtual(VirtualChannel::read(alloc, word)?))
    }

    fn write(value: &Channel, into: &mut Vec<u8>) -> Result<(), AllocError> {
        match value {
            Channel::Master => into.extend_from_slice(STAR),
            Channel::Virtual(channel) => VirtualChannel::write(channel, into),
        }
    }
}

type Spacecraft = Short<0, 1_023>;

type OfSpacecraft = Then<Octet<0, 3>, Last<OfMaster>>;

type Fields = Then<Spacecraft, OfSpacecraft>;

/// A channel: spacecraft, version and virtual channel, as `S/V/C`, or `S/V/*` for the master
/// channel.
pub struct ChannelWord;

impl Word for ChannelWord {
    ghost use Rattle.sle_common.specs.declared.gvcid.Gvcid.{Gvcid};
    ghost use Rattle.words.specs.Channels.{gvcid};

    type Value = Gvcid;

    ghost Seen = { Gvcid };

    ghost kind = { gvcid };

    ghost seen = { λ value. value };

    fn read(alloc: Global, word: &[u8]) -> Result<Gvcid, Unread> {
        let (spacecraft, (version, channel)) = Fields::read(alloc, b'/', Some(word))?;
        Ok(Gvcid {
            spacecraft,
            version,
            channel,
        })
    }

    fn write(value: &Gvcid, into: &mut Vec<u8>) -> Result<(), AllocError> {
        Spacecraft::write(&value.spacecraft, into)?;
        OfSpacecraft::put(b'/', (&value.version, &value.channel), into)
    }
}
