use crate::item::Item;
use crate::rcf_frame_fields::RcfFrameFields;
use crate::told_fields::ToldFields;
use ber_core::{BerFault, Reader, Writer};
use ber_shape::{Element, read_within, size_within, write_within};

/// An item of a transfer buffer of RCF: [0] a frame, [1] a notification.
pub(crate) struct RcfItem;

impl<'a> Element<'a> for RcfItem {
    ghost use Rattle.std.specs.Prelude.{refl};
    ghost use Rattle.return_pdu.specs.TransferItem.{ItemContent, rcf_item};
    ghost use Rattle.return_pdu.specs.Seen.{content_of};

    type Value = Item<'a>;

    ghost Seen = { ItemContent };

    ghost shape = { rcf_item };

    ghost is_shallow = { refl };

    ghost seen = { content_of };

    #[inline(always)]
    fn read(reader: &mut Reader<'a>) -> Result<Item<'a>, BerFault> {
        if reader.next_is(&[0xa1]) {
            let told = read_within::<ToldFields>(&[0xa1], reader)?;
            return Ok(Item::Notice(told));
        }
        let frame = read_within::<RcfFrameFields>(&[0xa0], reader)?;
        Ok(Item::Data(frame))
    }

    fn size(value: &Item<'a>) -> usize {
        match value {
            Item::Data(frame) => size_within::<RcfFrameFields>(&[0xa0], frame),
            Item::Notice(told) => size_within::<ToldFields>(&[0xa1], told),
        }
    }

    fn write(value: &Item<'a>, writer: &mut Writer) {
        match value {
            Item::Data(frame) => write_within::<RcfFrameFields>(&[0xa0], frame, writer),
            Item::Notice(told) => write_within::<ToldFields>(&[0xa1], told, writer),
        }
    }
}
