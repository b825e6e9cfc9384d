// What an index keeps: each of its fields has one of these types.
use archive_index::{Index, Key, Parts, Row, Shelf};
use std::alloc::Global;
use std::collections::BTreeMap;
use std::test::Fail;

fn shelves(rows: [&Shelf<Row>; 3], numbers: [&Shelf<u64>; 2]) -> u64 {
    let mut count = 0u64;
    for shelf in rows {
        count = count.saturating_add(shelf.length());
    }
    for shelf in numbers {
        count = count.saturating_add(shelf.length());
    }
    count
}

fn lists_by_channel(lists: &BTreeMap<Key, Shelf<u64>>) -> usize {
    lists.len()
}

fn numbers(moments: [u128; 2], counts: [u64; 2], statuses: [u8; 5]) -> (u128, u64, u8) {
    let [frames_end, seals_end] = moments;
    let [count, lost] = counts;
    let [_, _, _, _, production] = statuses;
    (frames_end.max(seals_end), count.max(lost), production)
}

#[test]
fn an_index_keeps_shelves_and_whole_numbers_alone(rt: HostRuntime) -> Result<(), Fail> {
    let index = Index::new(rt.alloc())?;
    let Parts {
        alloc,
        frames,
        good,
        erred,
        channels,
        seals,
        notices,
        count,
        frames_end,
        seals_end,
        lost,
        frame_sync,
        symbol,
        subcarrier,
        carrier,
        production,
    } = index.parts();
    let _alloc: Global = alloc;
    let statuses = [frame_sync, symbol, subcarrier, carrier, production];
    assert_eq!(rt; shelves([frames, seals, notices], [good, erred]), 0);
    assert_eq!(rt; lists_by_channel(channels), 0);
    assert_eq!(rt;
        numbers([frames_end, seals_end], [count, lost], statuses),
        (0, 0, 0)
    );
    Ok(())
}
