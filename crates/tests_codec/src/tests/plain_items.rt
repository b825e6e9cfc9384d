// The items that a station of RAF sends, as they are made of their parts. The octets were put
// together by hand from CCSDS 911.1-B, annex A, and X.690.
use cds_time::{Cds, Rest};
use return_pdu::{TransferBuffer, TransferItem};
use sle_numbers::FrameQuality;
use std::test::Fail;

const GOOD: FrameQuality = FrameQuality::Good;

const TWO_FRAMES: [u8; 62] = [
    0xa8, 0x3c, 0xa0, 0x1c, 0x80, 0, 0x80, 8, 0x4e, 0x20, 0, 0, 0x03, 0xe8, 0, 0, 0x81, 1, 0x41, 2,
    1, 0xff, 2, 1, 0, 0x80, 0, 4, 3, 0, 0x10, 0xa1, 0xa0, 0x1c, 0x80, 0, 0x80, 8, 0x4e, 0x20, 0, 0,
    0x07, 0xd0, 0, 0, 0x81, 1, 0x41, 2, 1, 0, 2, 1, 0, 0x80, 0, 4, 3, 0, 0x10, 0xa2,
];

fn at(millis: u32) -> Cds {
    Cds {
        days: 20_000,
        millis,
        rest: Rest::Micros(0),
    }
}

#[test]
fn plain_items_are_those_of_their_octets(rt: HostRuntime) -> Result<(), Fail> {
    let first = TransferItem::plain_frame(at(1_000), &[0x41], -1, GOOD, &[0, 0x10, 0xa1]);
    let second = TransferItem::plain_frame(at(2_000), &[0x41], 0, GOOD, &[0, 0x10, 0xa2]);
    assert_eq!(rt; (first.length(), second.length()), (30, 30));
    let mut frames = TransferBuffer::decode_raf(&TWO_FRAMES)?;
    assert_eq!(rt; (frames.next(), frames.next()), (Some(first), Some(second)));
    let mut end = TransferBuffer::decode_raf(&[0xa8, 6, 0xa1, 4, 0x80, 0, 0x83, 0])?;
    assert_eq!(rt; end.next(), Some(TransferItem::plain_end_of_data()));
    Ok(())
}
