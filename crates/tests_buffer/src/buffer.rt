// Buffers into which items are put by rows of octets. An item is its place, from 0.
use std::alloc::AllocError;
use std::test::Fail;
use transfer_buffer::{Buffer, Memory};

// Puts an item where one more goes in, at the moment 100; a notification closes the buffer.
fn put_if_open(buffer: &mut Buffer<u8>, item: u8, octets: u32, notice: bool) -> bool {
    let is_open = buffer.is_open();
    if is_open {
        buffer.put(item, octets, notice, notice, 100);
    }
    is_open
}

// The octets of two items of a buffer for two, whether each goes in, and whether it is full then.
const FILLS: [(u32, u32, bool, bool); 4] = [
    (524_287, 0, true, true),
    (524_288, 0, false, true),
    (0, 524_288, true, true),
    (0, 0, true, true),
];

#[test]
fn a_buffer_is_full_by_items_or_by_524_288_octets(rt: HostRuntime) -> Result<(), Fail> {
    for (first, second, goes_in, is_full) in FILLS {
        let mut buffer: Buffer<u8> = Buffer::new(rt.alloc(), 2)?;
        assert!(rt; put_if_open(&mut buffer, 0, first, false));
        assert_eq!(rt;
            put_if_open(&mut buffer, 1, second, false),
            goes_in,
            "{first}"
        );
        assert_eq!(rt; buffer.full(), is_full, "{first} {second}");
        assert!(rt; !put_if_open(&mut buffer, 2, 0, false));
    }
    let mut none: Buffer<u8> = Buffer::new(rt.alloc(), 0)?;
    assert!(rt; !put_if_open(&mut none, 0, 10, true));
    Ok(())
}

// A buffer takes its memory before all else, so that want of it would come first: with ample memory
// it doesn't, at the most items that a configuration gives.
#[test]
fn a_buffer_of_1_000_items_takes_1_000(rt: HostRuntime) -> Result<(), Fail> {
    let mut buffer: Buffer<u8> = Buffer::new(rt.alloc(), 1_000)?;
    for place in 0..1_000u32 {
        assert!(rt; put_if_open(&mut buffer, 0, 0, false), "{place}");
    }
    assert_eq!(rt; (buffer.full(), buffer.room()), (true, 0));
    Ok(())
}

// A moment, a latency, whether the items are the last ones, and whether an item of the moment 100
// is due, without a notification and with one.
const DUES: [(u128, Option<u128>, bool, bool, bool); 5] = [
    (109, Some(10), false, false, true),
    (110, Some(10), false, true, true),
    (99, Some(10), false, false, true),
    (1_000, None, false, false, true),
    (100, None, true, true, true),
];

#[test]
fn a_buffer_is_due_at_its_latency_and_not_one_picosecond_before(
    rt: HostRuntime,
) -> Result<(), Fail> {
    let mut buffer: Buffer<u8> = Buffer::new(rt.alloc(), 3)?;
    assert!(rt; put_if_open(&mut buffer, 0, 10, false));
    let mut notified: Buffer<u8> = Buffer::new(rt.alloc(), 3)?;
    assert!(rt; put_if_open(&mut notified, 0, 0, true));
    let empty: Buffer<u8> = Buffer::new(rt.alloc(), 3)?;
    for (now, latency, last, is_due, is_due_notified) in DUES {
        assert_eq!(rt; buffer.due(now, latency, last), is_due, "at {now}");
        assert_eq!(rt;
            notified.due(now, latency, last),
            is_due_notified,
            "at {now}"
        );
        assert!(rt; !empty.due(now, latency, last));
    }
    Ok(())
}

#[test]
fn a_buffer_tells_what_it_holds_and_gives_it_up(rt: HostRuntime) -> Result<(), Fail> {
    let mut buffer: Buffer<u8> = Buffer::new(rt.alloc(), 3)?;
    assert!(rt; put_if_open(&mut buffer, 7, 10, false));
    assert_eq!(rt; buffer.items(), [7].as_slice());
    assert_eq!(rt;
        (buffer.octets(), buffer.since(), buffer.room()),
        (10, 100, 2)
    );
    assert_eq!(rt; buffer.discard(), 1);
    assert!(rt; put_if_open(&mut buffer, 8, 10, true));
    buffer.release();
    assert_eq!(rt;
        (buffer.octets(), buffer.since(), buffer.room()),
        (0, 100, 3)
    );
    buffer.clear();
    assert_eq!(rt; (buffer.since(), buffer.is_open()), (0, true));
    Ok(())
}

#[test]
fn want_of_memory_has_a_text_and_turns_into_that_of_std(rt: HostRuntime) -> Result<(), Fail> {
    assert_eq!(rt; Memory::from(AllocError::from(Memory)), Memory);
    let text = format!(in rt.alloc(); "{}", Memory)?;
    assert_eq!(rt; text.as_str(), "out of memory");
    Ok(())
}
