// The metrics of doors.
ghost use Rattle.std.specs.Prelude.{◌≡◌, ◌++◌, OnOk};
ghost use Rattle.std.specs.List.{flat_map};
ghost use Rattle.status_page.specs.Metrics.{door_sample, door_metric};

use crate::door_number::DoorNumber;
use crate::metric_lines::{Metric, put_door_front, put_door_heads, put_labelled};
use itoa::Buffer;
use station_snapshot::DoorNow;
use std::alloc::AllocError;

#[tactic(auto, unfolding(crate::specs::Metrics::door_sample))]
fn put_door_sample(number: DoorNumber, door: &DoorNow, into: &mut Vec<u8>) -> Result<(), AllocError>
    ensures { OnOk result (into.new.items ≡ into.old.items ++ door_sample number door.now) }
{
    let mut buffer = Buffer::new();
    put_door_front(number.word(), into)?;
    put_labelled("", buffer.format(door.number), number.of(door), into)
}

fn put_door_samples(
    number: DoorNumber,
    doors: &[DoorNow],
    into: &mut Vec<u8>,
) -> Result<(), AllocError>
    ensures { OnOk result (into.new.items
        ≡ into.old.items ++ flat_map (door_sample number) doors.now) }
{
    for door in doors {
        put_door_sample(number, door, into)?;
    }
    Ok(())
}

#[tactic(auto, unfolding(crate::specs::Metrics::door_metric))]
fn put_door_metric(
    doors: &[DoorNow],
    number: DoorNumber,
    into: &mut Vec<u8>,
) -> Result<(), AllocError>
    ensures { OnOk result (into.new.items ≡ into.old.items ++ door_metric doors.now number) }
{
    let metric = Metric {
        word: number.word(),
        help: number.help(),
        is_total: number.is_total(),
    };
    put_door_heads(metric, into)?;
    put_door_samples(number, doors, into)
}

// Each of these numbers of the doors.
pub(crate) fn put_door_metrics(
    doors: &[DoorNow],
    numbers: &[DoorNumber],
    into: &mut Vec<u8>,
) -> Result<(), AllocError>
    ensures { OnOk result (into.new.items
        ≡ into.old.items ++ flat_map (door_metric doors.now) numbers.now) }
{
    for number in numbers {
        put_door_metric(doors, *number, into)?;
    }
    Ok(())
}
