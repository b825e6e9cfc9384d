// What an index consists of.

use crate::channels::Key;
use crate::index::Index;
use crate::row::Row;
use crate::shelf::Shelf;
use crate::totals::Totals;
use std::alloc::Global;
use std::collections::BTreeMap;

/// Everything that an index keeps: shelves, an ordered map from channels to shelves, whole numbers,
/// and the allocator.
pub struct Parts<'a> {
    pub alloc: Global,
    pub frames: &'a Shelf<Row>,
    pub good: &'a Shelf<u64>,
    pub erred: &'a Shelf<u64>,
    pub channels: &'a BTreeMap<Key, Shelf<u64>>,
    pub seals: &'a Shelf<Row>,
    pub notices: &'a Shelf<Row>,
    pub count: u64,
    pub frames_end: u128,
    pub seals_end: u128,
    pub lost: u64,
    pub frame_sync: u8,
    pub symbol: u8,
    pub subcarrier: u8,
    pub carrier: u8,
    pub production: u8,
}

impl Index {
    /// Takes the index apart. The pattern names each field, so nothing else is kept.
    pub fn parts(&self) -> Parts<'_> {
        let Index {
            alloc,
            frames,
            good,
            erred,
            channels,
            seals,
            notices,
            count,
            totals: Totals {
                frames_end,
                seals_end,
                lost,
                frame_sync,
                symbol,
                subcarrier,
                carrier,
                production,
            },
        } = self;
        Parts {
            alloc: *alloc,
            frames,
            good,
            erred,
            channels,
            seals,
            notices,
            count: *count,
            frames_end: *frames_end,
            seals_end: *seals_end,
            lost: *lost,
            frame_sync: *frame_sync,
            symbol: *symbol,
            subcarrier: *subcarrier,
            carrier: *carrier,
            production: *production,
        }
    }
}
