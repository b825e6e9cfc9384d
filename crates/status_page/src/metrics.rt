// The status as metrics.
ghost use Rattle.std.specs.Prelude.{◌≡◌, ◌++◌, OnOk, IfOk};
ghost use Rattle.std.specs.List.{flat_map};
ghost use Rattle.status_page.specs.Metrics.{healthy_text, metric_text, trouble_sample, troubles_text};
ghost use Rattle.status_page.specs.Metrics.{metrics_text};

use crate::door_metrics::put_door_metrics;
use crate::door_number::DoorNumber;
use crate::flag::flag;
use crate::metric_lines::{Metric, put_heads, put_labelled, put_metric};
use crate::number::Number;
use station_health::{Trouble, is_healthy};
use station_snapshot::Snapshot;
use std::alloc::{AllocError, Global};

// How many octets metrics have room for before they grow.
const ROOM: usize = 8_192;

const HEALTHY: Metric = Metric {
    word: "healthy",
    help: "1 if the station is healthy.",
    is_total: false,
};

const TROUBLE: Metric = Metric {
    word: "trouble",
    help: "1 while the station has this trouble.",
    is_total: false,
};

fn put_healthy(snapshot: &Snapshot, into: &mut Vec<u8>) -> Result<(), AllocError>
    ensures { OnOk result (into.new.items ≡ into.old.items ++ healthy_text snapshot.now) }
{
    put_metric(HEALTHY, flag(is_healthy(snapshot)), into)
}

fn put_number(snapshot: &Snapshot, number: Number, into: &mut Vec<u8>) -> Result<(), AllocError>
    ensures { OnOk result (into.new.items ≡ into.old.items ++ metric_text snapshot.now number) }
{
    let metric = Metric {
        word: number.word(),
        help: number.help(),
        is_total: number.is_total(),
    };
    put_metric(metric, number.of(snapshot), into)
}

fn put_metrics(
    snapshot: &Snapshot,
    numbers: &[Number],
    into: &mut Vec<u8>,
) -> Result<(), AllocError>
    ensures { OnOk result (into.new.items
        ≡ into.old.items ++ flat_map (metric_text snapshot.now) numbers.now) }
{
    for number in numbers {
        put_number(snapshot, *number, into)?;
    }
    Ok(())
}

fn put_trouble(snapshot: &Snapshot, trouble: Trouble, into: &mut Vec<u8>) -> Result<(), AllocError>
    ensures { OnOk result (into.new.items ≡ into.old.items ++ trouble_sample snapshot.now trouble) }
{
    let value = flag(trouble.is_there(snapshot));
    put_labelled("station_trouble{name=\"", trouble.name(), value, into)
}

fn put_trouble_samples(
    snapshot: &Snapshot,
    troubles: &[Trouble],
    into: &mut Vec<u8>,
) -> Result<(), AllocError>
    ensures { OnOk result (into.new.items
        ≡ into.old.items ++ flat_map (trouble_sample snapshot.now) troubles.now) }
{
    for trouble in troubles {
        put_trouble(snapshot, *trouble, into)?;
    }
    Ok(())
}

#[tactic(auto, unfolding(crate::specs::Metrics::troubles_text))]
fn put_troubles(snapshot: &Snapshot, into: &mut Vec<u8>) -> Result<(), AllocError>
    ensures { OnOk result (into.new.items ≡ into.old.items ++ troubles_text snapshot.now) }
{
    put_heads(TROUBLE, into)?;
    put_trouble_samples(snapshot, Trouble::all(), into)
}

/// The status as metrics.
pub fn metrics_text(alloc: Global, snapshot: &Snapshot) -> Result<Vec<u8>, AllocError>
    ensures { IfOk result (λ text. text.items ≡ metrics_text snapshot.now) }
{
    let mut text = Vec::with_capacity(alloc, ROOM)?;
    put_healthy(snapshot, &mut text)?;
    put_troubles(snapshot, &mut text)?;
    put_metrics(snapshot, Number::all(), &mut text)?;
    put_door_metrics(snapshot.doors.as_slice(), DoorNumber::all(), &mut text)?;
    Ok(text)
}
