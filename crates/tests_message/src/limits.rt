// Which items go into one message: at each limit, and one past it (CCSDS 911.1-B, annex A; the most
// items, the longest frame and the octets of a buffer are this product's own).
use crate::items::at;
use buffer_message::BufferMessage;
use frame_select::Item;
use octet_core::{Memory, Octets};
use sle_numbers::FrameQuality;
use std::alloc::Global;
use std::test::Fail;

// An antenna's octets, the continuity and a frame's octets; and whether a frame of these goes into
// a message.
const FRAMES: [(usize, i32, usize, bool); 10] = [
    (0, -1, 1, false),
    (1, -1, 1, true),
    (16, -1, 1, true),
    (17, -1, 1, false),
    (1, -2, 1, false),
    (1, 16_777_215, 1, true),
    (1, 16_777_216, 1, false),
    (1, -1, 0, false),
    (1, -1, 65_536, true),
    (1, -1, 65_537, false),
];

// How many items there are, each a frame of one octet.
const COUNTS: [(usize, bool); 2] = [(1_000, true), (1_001, false)];

// How many octets a frame has that comes after eight of 65,536 octets.
const LAST: [(usize, bool); 2] = [(65_535, true), (65_536, false)];

fn sized(alloc: Global, antenna: usize, continuity: i32, octets: usize) -> Result<Item, Memory> {
    let antenna = vec![in alloc; 0x41u8; antenna]?;
    let octets = vec![in alloc; 0x55u8; octets]?;
    Ok(Item::Frame {
        place: 0,
        ert: at(0),
        quality: FrameQuality::Good,
        antenna: Octets::copy_of(alloc, &antenna)?,
        continuity,
        octets: Octets::copy_of(alloc, &octets)?,
    })
}

fn frames(alloc: Global, count: usize, octets: usize) -> Result<Vec<Item>, Memory> {
    let mut items = Vec::new(alloc);
    for _ in 0..count {
        items.push(sized(alloc, 1, -1, octets)?)?;
    }
    Ok(items)
}

#[test]
fn a_frame_goes_into_a_message_to_its_limits(rt: HostRuntime) -> Result<(), Fail> {
    for (antenna, continuity, octets, fits) in FRAMES {
        let items = [sized(rt.alloc(), antenna, continuity, octets)?];
        assert_eq!(rt; BufferMessage::fits(&items), fits);
    }
    Ok(())
}

#[test]
fn a_thousand_items_go_into_a_message(rt: HostRuntime) -> Result<(), Fail> {
    for (count, fits) in COUNTS {
        assert_eq!(rt; BufferMessage::fits(&frames(rt.alloc(), count, 1)?), fits);
    }
    Ok(())
}

#[test]
fn fewer_than_589_824_octets_of_frames_go_into_a_message(rt: HostRuntime) -> Result<(), Fail> {
    for (octets, fits) in LAST {
        let mut items = frames(rt.alloc(), 8, 65_536)?;
        items.push(sized(rt.alloc(), 1, -1, octets)?)?;
        assert_eq!(rt; BufferMessage::fits(&items), fits);
    }
    Ok(())
}
