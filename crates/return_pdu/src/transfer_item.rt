ghost use Rattle.std.specs.Prelude.{◌≡◌, ◌+◌, ◌≤◌, length};
ghost use Rattle.ber_core.specs.Spelling.{canonical};
ghost use Rattle.ber_core.specs.Written.{HasRoom, Appends};
ghost use Rattle.sle_numbers.specs.FrameQuality.{number_of};
ghost use Rattle.return_pdu.specs.TransferItem.{ItemFits, item_tree};
ghost use Rattle.return_pdu.specs.Items.{frame, frame_of, end_of_data};
ghost use Rattle.return_pdu.specs.Fields.{IsFrame};
ghost use Rattle.return_pdu.specs.Plain.{plain_item, plain_end};
ghost use Rattle.return_pdu.specs.Seen.{item_of, content_of};

use crate::frame_fields::FrameFields;
use crate::item::Item;
use crate::notification::Notification;
use crate::told_fields::ToldFields;
use ber_core::Writer;
use cds_time::Cds;
use sle_common::{AntennaId, Credentials};
use sle_numbers::FrameQuality;

/// An item of a transfer buffer (CCSDS 911.1-B and 911.2-B, annex A), lent from its octets.
#[derive(Clone, Copy, Debug, PartialEq, Eq)]
pub enum TransferItem<'a> {
    /// Under the context tag 0, a frame.
    Frame {
        credentials: Credentials<'a>,
        /// The earth receive time.
        ert: Cds,
        antenna: AntennaId<'a>,
        /// -1 where it isn't known, else how many frames are missing before it, 0 to 16777215.
        continuity: i32,
        /// How it was received; none exactly for RCF.
        quality: Option<FrameQuality>,
        /// What the station notes of it: 1 to 128 octets.
        note: Option<&'a [u8]>,
        /// The frame: 1 to 65536 octets (this product's own).
        octets: &'a [u8],
    },
    /// Under the context tag 1, a notification.
    Told {
        credentials: Credentials<'a>,
        notice: Notification,
    },
}

impl<'a> TransferItem<'a> {
    /// A frame of RAF with unused credentials, the local form of its antenna and no annotation.
    #[tactic(auto, using(crate::proofs::Plain::fits_with, crate::proofs::Frames::frames_short))]
    pub fn plain_frame(
        ert: Cds,
        antenna: &'a [u8],
        continuity: i32,
        quality: FrameQuality,
        octets: &'a [u8],
    ) -> TransferItem<'a>
        requires { IsFrame (frame_of ert antenna.now continuity (number_of quality) octets.now) }
        ensures content { item_of result ≡ plain_item
            (frame_of ert antenna.now continuity (number_of quality) octets.now) }
        ensures fits { ItemFits (item_of result) }
        ensures tree { item_tree (item_of result)
            ≡ frame (frame_of ert antenna.now continuity (number_of quality) octets.now) }

        // A bound for callers that add lengths up.
        ensures small { length (canonical (frame
            (frame_of ert antenna.now continuity (number_of quality) octets.now))) ≤ length octets.now + 300 }
    {
        TransferItem::Frame {
            credentials: Credentials::Unused,
            ert,
            antenna: AntennaId::Local(antenna),
            continuity,
            quality: Some(quality),
            note: None,
            octets,
        }
    }

    /// The notification that all data was given, with unused credentials: 6 octets.
    #[tactic(auto, using(crate::proofs::Frames::end_of_data_size))]
    pub fn plain_end_of_data() -> TransferItem<'a>
        ensures content { item_of result ≡ plain_end }
        ensures fits { ItemFits (item_of result) }
        ensures tree { item_tree (item_of result) ≡ end_of_data }
        ensures six { length (canonical end_of_data) ≡ 6 }
    {
        TransferItem::Told {
            credentials: Credentials::Unused,
            notice: Notification::EndOfData,
        }
    }

    /// The number of octets that `encode` appends.
    pub fn length(&self) -> usize
        requires { ItemFits (item_of self.now) }
        ensures { result ≡ length (canonical (item_tree (item_of self.now))) }
    {
        let item = self.parts();
        item.size()
    }

    /// Appends the canonical spelling.
    pub fn encode(&self, writer: &mut Writer)
        requires fits { ItemFits (item_of self.now) }
        requires room { HasRoom writer.old (canonical (item_tree (item_of self.now))) }
        ensures { Appends writer.old writer.new (canonical (item_tree (item_of self.now))) }
    {
        let item = self.parts();
        item.write(writer);
    }

    fn parts(&self) -> Item<'a>
        ensures { content_of result ≡ item_of self.now }
    {
        match *self {
            TransferItem::Frame {
                credentials,
                ert,
                antenna,
                continuity,
                quality,
                note,
                octets,
            } => Item::Data(FrameFields {
                credentials,
                ert,
                antenna,
                continuity,
                quality,
                note,
                octets,
            }),
            TransferItem::Told {
                credentials,
                notice,
            } => Item::Notice(ToldFields {
                credentials,
                notice,
            }),
        }
    }

    #[inline(always)]
    pub(crate) fn of_parts(item: &Item<'a>) -> TransferItem<'a>
        ensures { item_of result ≡ content_of item.now }
    {
        match item {
            Item::Data(frame) => TransferItem::Frame {
                credentials: frame.credentials,
                ert: frame.ert,
                antenna: frame.antenna,
                continuity: frame.continuity,
                quality: frame.quality,
                note: frame.note,
                octets: frame.octets,
            },
            Item::Notice(told) => TransferItem::Told {
                credentials: told.credentials,
                notice: told.notice,
            },
        }
    }
}
