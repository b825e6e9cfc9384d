// Items to be told.
use cds_time::{Cds, Rest};
use frame_select::Item;
use octet_core::{Memory, Octets};
use sle_numbers::{FrameQuality, LockStatus};
use std::alloc::Global;

/// 20000 days, and so many milliseconds.
pub fn at(millis: u32) -> Cds {
    Cds {
        days: 20_000,
        millis,
        rest: Rest::Micros(0),
    }
}

/// A good frame that the antenna `A` received.
pub fn frame(alloc: Global, millis: u32, lost: i32, octets: &[u8]) -> Result<Item, Memory> {
    Ok(Item::Frame {
        place: 0,
        ert: at(millis),
        quality: FrameQuality::Good,
        antenna: Octets::copy_of(alloc, b"A")?,
        continuity: lost,
        octets: Octets::copy_of(alloc, octets)?,
    })
}

/// A loss of synchronisation.
pub fn loss() -> Item {
    Item::Loss {
        place: 0,
        at: at(1_500),
        carrier: LockStatus::InLock,
        subcarrier: LockStatus::Unknown,
        symbol: LockStatus::OutOfLock,
    }
}
