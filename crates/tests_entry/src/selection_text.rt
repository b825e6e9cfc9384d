// Whether a selection admits an entry, as a text.
use crate::rows::{first_of, octets_of};
use cds_time::{Cds, Rest};
use frame_select::{Filter, Selection, admits};
use octet_core::{Memory, Octets};
use record_form::Entry;
use sle_common::{Channel, Gvcid};
use sle_numbers::{Numbered, RequestedFrameQuality, ReturnProductionStatus};
use std::alloc::{AllocError, Global};
use std::fmt::Write;

// One second into day 20,000.
const AT: u128 = (20_000 * 86_400_000 + 1_000) * 1_000_000_000;

// All frames.
const ALL: Selection = Selection {
    filter: Filter::Quality(RequestedFrameQuality::AllFrames),
    start: None,
    stop: None,
    first: 0,
    notices: false,
};

// `at`, or a picosecond `before` or `after` it.
fn moment_of(word: &str) -> Option<u128> {
    match word {
        "before" => Some(AT - 1),
        "at" => Some(AT),
        "after" => Some(AT + 1),
        _ => None,
    }
}

// Of spacecraft, version and the channel of a number or, of `*`, the master channel.
fn channel_of(words: &str) -> Gvcid {
    let (spacecraft, words) = first_of(words);
    let (version, words) = first_of(words);
    let (channel, _) = first_of(words);
    Gvcid {
        spacecraft: spacecraft.parse().unwrap_or(9),
        version: version.parse().unwrap_or(9),
        channel: if channel == "*" {
            Channel::Master
        } else {
            Channel::Virtual(channel.parse().unwrap_or(9))
        },
    }
}

// The value of a number of its table.
fn value_of<T: Numbered>(word: &str) -> Result<T, AllocError> {
    match T::from_number(word.parse().unwrap_or(u8::MAX)) {
        Some(value) => Ok(value),
        None => Err(AllocError),
    }
}

/// A frame of day 20,000: its milliseconds, its quality and its octets.
pub fn frame(alloc: Global, words: &str) -> Result<Entry, Memory> {
    let (millis, words) = first_of(words);
    let (quality, words) = first_of(words);
    let quality = value_of(quality)?;
    let antenna = Octets::copy_of(alloc, b"A")?;
    Ok(Entry::Frame {
        ert: Cds {
            days: 20_000,
            millis: millis.parse().unwrap_or(0),
            rest: Rest::Micros(0),
        },
        quality,
        antenna,
        lost: 0,
        octets: Octets::from_vec(alloc, octets_of(alloc, words)?)?,
    })
}

// Takes the words of a part.
fn take_part(selection: &mut Selection, words: &str) -> Result<(), AllocError> {
    let (name, words) = first_of(words);
    let (first, _) = first_of(words);
    match name {
        "quality" => selection.filter = Filter::Quality(value_of(first)?),
        "channel" => selection.filter = Filter::Channel(channel_of(words)),
        "start" => selection.start = moment_of(first),
        "stop" => selection.stop = moment_of(first),
        "first" => selection.first = first.parse().unwrap_or(0),
        _ => {}
    }
    Ok(())
}

// The selection of parts between commas: what each asks for beside all frames.
fn selection_of(parts: &str) -> Result<Selection, AllocError> {
    let mut selection = ALL;
    for part in parts.split(',') {
        take_part(&mut selection, part)?;
    }
    Ok(selection)
}

// A frame, or another entry.
fn entry_of(alloc: Global, words: &str) -> Result<Entry, Memory> {
    let (name, words) = first_of(words);
    match name {
        "seal" => Ok(Entry::Seal { at: Cds::EPOCH }),
        "production" => Ok(Entry::Production {
            status: ReturnProductionStatus::Running,
        }),
        _ => frame(alloc, words),
    }
}

/// Of the parts of a selection, and behind a colon a place and an entry: a frame with milliseconds,
/// quality and octets, or another one.
pub fn tell_selection(alloc: Global, text: &str, told: &mut String) -> Result<(), AllocError> {
    let (parts, words) = text.split_once(':').unwrap_or((text, ""));
    let (place, words) = first_of(words);
    let selection = selection_of(parts)?;
    let entry = entry_of(alloc, words)?;
    let place = place.parse().unwrap_or(0);
    write!(told, "{}", admits(&selection, place, &entry))
}
