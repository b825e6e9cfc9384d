ghost use Rattle.std.specs.Prelude.{◌≡◌, length};
ghost use Rattle.ber_core.specs.Spelling.{canonical};
ghost use Rattle.ber_core.specs.Written.{HasRoom, Appends};
ghost use Rattle.return_pdu.specs.TransferItem.{ItemFits, item_tree};
ghost use Rattle.return_pdu.specs.Seen.{content_of};

use crate::frame_fields::FrameFields;
use crate::raf_frame_fields::RafFrameFields;
use crate::rcf_frame_fields::RcfFrameFields;
use crate::told_fields::ToldFields;
use ber_core::Writer;
use ber_shape::{size_within, write_within};

/// An item of a transfer buffer, in the two types whose octets are read.
#[derive(Clone, Copy)]
pub(crate) enum Item<'a> {
    Data(FrameFields<'a>),
    Notice(ToldFields<'a>),
}

impl<'a> Item<'a> {
    /// The number of octets that `write` appends.
    pub fn size(&self) -> usize
        requires { ItemFits (content_of self.now) }
        ensures { result ≡ length (canonical (item_tree (content_of self.now))) }
    {
        match self {
            Item::Data(frame) => match frame.quality {
                Some(_) => size_within::<RafFrameFields>(&[0xa0], frame),
                None => size_within::<RcfFrameFields>(&[0xa0], frame),
            },
            Item::Notice(told) => size_within::<ToldFields>(&[0xa1], told),
        }
    }

    /// Appends the canonical spelling.
    pub fn write(&self, writer: &mut Writer)
        requires fits { ItemFits (content_of self.now) }
        requires room { HasRoom writer.old (canonical (item_tree (content_of self.now))) }
        ensures { Appends writer.old writer.new (canonical (item_tree (content_of self.now))) }
    {
        match self {
            Item::Data(frame) => match frame.quality {
                Some(_) => write_within::<RafFrameFields>(&[0xa0], frame, writer),
                None => write_within::<RcfFrameFields>(&[0xa0], frame, writer),
            },
            Item::Notice(told) => write_within::<ToldFields>(&[0xa1], told, writer),
        }
    }
}
