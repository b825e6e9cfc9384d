// The lines of metrics.
ghost use Rattle.std.specs.Prelude.{◌≡◌, ◌++◌, OnOk};
ghost use Rattle.status_page.specs.Metrics.{kind_word, words_line, heads, door_heads, metric};
ghost use Rattle.status_page.specs.Metrics.{labelled, between, door_front};

use itoa::Buffer;
use std::alloc::AllocError;

/// What a metric is.
#[derive(Clone, Copy)]
pub(crate) struct Metric {
    pub word: &'static str,
    pub help: &'static str,
    pub is_total: bool,
}

fn kind_word(is_total: bool) -> &'static str
    ensures { result.now ≡ kind_word is_total }
{
    if is_total { "counter" } else { "gauge" }
}

#[tactic(auto, unfolding(crate::specs::Metrics::words_line))]
fn put_words(front: &str, word: &str, rest: &str, into: &mut Vec<u8>) -> Result<(), AllocError>
    ensures { OnOk result (into.new.items
        ≡ into.old.items ++ words_line front.now word.now rest.now) }
{
    into.extend_from_slice(front.as_bytes())?;
    into.extend_from_slice(word.as_bytes())?;
    into.extend_from_slice(b" ")?;
    into.extend_from_slice(rest.as_bytes())?;
    into.extend_from_slice(b"\n")
}

// What a metric of the station is, and its kind.
#[tactic(auto, unfolding(crate::specs::Metrics::heads))]
pub(crate) fn put_heads(metric: Metric, into: &mut Vec<u8>) -> Result<(), AllocError>
    ensures { OnOk result (into.new.items
        ≡ into.old.items ++ heads metric.word.now metric.help.now metric.is_total) }
{
    put_words("# HELP station_", metric.word, metric.help, into)?;
    put_words(
        "# TYPE station_",
        metric.word,
        kind_word(metric.is_total),
        into,
    )
}

// What a metric of doors is, and its kind.
#[tactic(auto, unfolding(crate::specs::Metrics::door_heads))]
pub(crate) fn put_door_heads(metric: Metric, into: &mut Vec<u8>) -> Result<(), AllocError>
    ensures { OnOk result (into.new.items
        ≡ into.old.items ++ door_heads metric.word.now metric.help.now metric.is_total) }
{
    put_words("# HELP station_door_", metric.word, metric.help, into)?;
    put_words(
        "# TYPE station_door_",
        metric.word,
        kind_word(metric.is_total),
        into,
    )
}

// A metric of the station with its value.
#[tactic(auto, unfolding(crate::specs::Metrics::metric))]
pub(crate) fn put_metric(of: Metric, value: u64, into: &mut Vec<u8>) -> Result<(), AllocError>
    ensures { OnOk result (into.new.items ≡ into.old.items
        ++ metric of.word.now of.help.now of.is_total value) }
{
    let mut buffer = Buffer::new();
    put_heads(of, into)?;
    put_words("station_", of.word, buffer.format(value), into)
}

// A label's value, its end, and a value, as the end of a line.
#[tactic(auto, unfolding(crate::specs::Metrics::labelled))]
pub(crate) fn put_labelled(
    front: &str,
    label: &str,
    value: u64,
    into: &mut Vec<u8>,
) -> Result<(), AllocError>
    ensures { OnOk result (into.new.items
        ≡ into.old.items ++ labelled front.now label.now value) }
{
    let mut buffer = Buffer::new();
    into.extend_from_slice(front.as_bytes())?;
    into.extend_from_slice(label.as_bytes())?;
    into.extend_from_slice(b"\"} ")?;
    into.extend_from_slice(buffer.format(value).as_bytes())?;
    into.extend_from_slice(b"\n")
}

// A word between two texts.
#[tactic(auto, unfolding(crate::specs::Metrics::between))]
fn put_between(before: &str, word: &str, after: &str, into: &mut Vec<u8>) -> Result<(), AllocError>
    ensures { OnOk result (into.new.items
        ≡ into.old.items ++ between before.now word.now after.now) }
{
    into.extend_from_slice(before.as_bytes())?;
    into.extend_from_slice(word.as_bytes())?;
    into.extend_from_slice(after.as_bytes())
}

// A door metric's name, up to the number of its door.
pub(crate) fn put_door_front(word: &str, into: &mut Vec<u8>) -> Result<(), AllocError>
    ensures { OnOk result (into.new.items ≡ into.old.items ++ door_front word.now) }
{
    put_between("station_door_", word, "{door=\"", into)
}
