// The last word of a START for frames.

use sle_common::Gvcid;
use sle_numbers::RequestedFrameQuality;
use std::alloc::{AllocError, Global};
use words::{ChannelWord, NumberOf, Unread, Word};

/// What a START for frames asks for: a channel of RCF's, or a quality of RAF's.
#[derive(Clone, Copy, Debug, PartialEq, Eq)]
pub enum Wanted {
    /// A channel.
    OfChannel(Gvcid),
    /// A quality.
    OfQuality(RequestedFrameQuality),
}

type Quality = NumberOf<RequestedFrameQuality>;

impl Word for Wanted {
    ghost use Rattle.drill_text.specs.Kinds.{wanted};
    ghost use Rattle.drill_text.specs.declared.wanted.Wanted.{Wanted};

    type Value = Wanted;

    ghost Seen = { Wanted };

    ghost kind = { wanted };

    ghost seen = { λ value. value };

    fn read(alloc: Global, word: &[u8]) -> Result<Wanted, Unread> {
        match ChannelWord::read(alloc, word) {
            Ok(channel) => Ok(Wanted::OfChannel(channel)),
            Err(Unread::Bad) => Ok(Wanted::OfQuality(Quality::read(alloc, word)?)),
            Err(Unread::Memory) => Err(Unread::Memory),
        }
    }

    fn write(value: &Wanted, into: &mut Vec<u8>) -> Result<(), AllocError> {
        match value {
            Wanted::OfChannel(channel) => ChannelWord::write(channel, into),
            Wanted::OfQuality(quality) => Quality::write(quality, into),
        }
    }
}
