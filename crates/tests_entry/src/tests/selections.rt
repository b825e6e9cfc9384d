// The channel of a frame, and which frames a START asks for.
use frame_select::{Item, Items};
use sle_numbers::ReturnProductionStatus;
use std::alloc::{AllocError, Global};
use std::process::Abort;
use std::test::Fail;

// The last rows are too short, or of an unknown version.
pub const HEADERS: &str = "
0000 = Some(Gvcid { spacecraft: 0, version: 0, channel: Virtual(0) })|
000f = Some(Gvcid { spacecraft: 0, version: 0, channel: Virtual(7) })|
3ff0 = Some(Gvcid { spacecraft: 1023, version: 0, channel: Virtual(0) })|
3fff = Some(Gvcid { spacecraft: 1023, version: 0, channel: Virtual(7) })|
007e = Some(Gvcid { spacecraft: 7, version: 0, channel: Virtual(7) })|
4000 = Some(Gvcid { spacecraft: 0, version: 1, channel: Virtual(0) })|
403f = Some(Gvcid { spacecraft: 0, version: 1, channel: Virtual(63) })|
7fc0 = Some(Gvcid { spacecraft: 255, version: 1, channel: Virtual(0) })|
7fff = Some(Gvcid { spacecraft: 255, version: 1, channel: Virtual(63) })|
407f = Some(Gvcid { spacecraft: 1, version: 1, channel: Virtual(63) })|
407fa1 = Some(Gvcid { spacecraft: 1, version: 1, channel: Virtual(63) })|
 = None|
40 = None|
8000 = None|
bf00 = None|
c000 = None|
ff00 = None|";

// Of three frames, one of spacecraft 7 and two of channel 63 of spacecraft 1, the last one is
// erred. A frame has its milliseconds, its quality and its octets.
pub const CHANNELS: &str = "
channel 1 1 63: 0 frame 500 0 007ea0 = false|
channel 1 1 63: 1 frame 1000 0 407fa1 = true|
channel 1 1 63: 2 frame 1500 1 407fa2 = false|
channel 1 1 *: 0 frame 500 0 007ea0 = false|
channel 1 1 *: 1 frame 1000 0 407fa1 = true|
channel 1 1 *: 2 frame 1500 1 407fa2 = false|";

pub const QUALITIES: &str = "
quality 0: 0 frame 0 0 00 = true|
quality 0: 0 frame 0 1 00 = false|
quality 0: 0 frame 0 2 00 = false|
quality 1: 0 frame 0 0 00 = false|
quality 1: 0 frame 0 1 00 = true|
quality 1: 0 frame 0 2 00 = false|
quality 2: 0 frame 0 0 00 = true|
quality 2: 0 frame 0 1 00 = true|
quality 2: 0 frame 0 2 00 = true|";

// From start to stop: at the frame's time, and a picosecond before or after it.
pub const TIMES: &str = "
all: 0 frame 1000 0 00 = true|
start at, stop at: 0 frame 1000 0 00 = true|
start after: 0 frame 1000 0 00 = false|
stop before: 0 frame 1000 0 00 = false|
start before, stop after: 0 frame 1000 0 00 = true|";

// From the first position on, and no other entry than a frame.
pub const PLACES: &str = "
first 5: 4 frame 1000 0 00 = false|
first 5: 5 frame 1000 0 00 = true|
all: 0 seal = false|
all: 0 production = false|";

fn two_items(alloc: Global) -> Result<Items, AllocError> {
    let mut items = Items::new(alloc);
    items.push(Item::Backlog)?;
    items.push(Item::Production {
        place: 3,
        status: ReturnProductionStatus::Interrupted,
    })?;
    Ok(items)
}

#[test]
fn items_are_kept_in_order(rt: HostRuntime) -> Result<(), Fail> {
    assert!(rt; Items::new(rt.alloc()).is_empty());
    let items = two_items(rt.alloc())?;
    let first_is_so = items.as_slice().first() == Some(&Item::Backlog);
    assert!(rt; items.len() == 2 && first_is_so && items.into_vec().len() == 2);
    Ok(())
}
