// Moments and counts as texts for people.
ghost use Rattle.std.specs.Prelude.{◌≡◌, ◌++◌, OnOk, IfOk};
ghost use Rattle.status_view.specs.Texts.{two, one, seconds_text, age_text, tenths, octets_text};
ghost use Rattle.status_view.specs.Texts.{padded, time_text};

use itoa::Buffer;
use std::alloc::{AllocError, Global};

// How many octets such a text has room for before it grows.
const ROOM: usize = 24;

#[tactic(auto, unfolding(crate::specs::Texts::two))]
fn put_two(a: u64, unit: &str, b: u64, part: &str, into: &mut Vec<u8>) -> Result<(), AllocError>
    ensures { OnOk result (into.new.items
        ≡ into.old.items ++ two a unit.now b part.now) }
{
    let mut first = Buffer::new();
    let mut second = Buffer::new();
    into.extend_from_slice(first.format(a).as_bytes())?;
    into.extend_from_slice(unit.as_bytes())?;
    into.extend_from_slice(second.format(b).as_bytes())?;
    into.extend_from_slice(part.as_bytes())
}

#[tactic(auto, unfolding(crate::specs::Texts::one))]
fn put_one(a: u64, unit: &str, into: &mut Vec<u8>) -> Result<(), AllocError>
    ensures { OnOk result (into.new.items ≡ into.old.items ++ one a unit.now) }
{
    let mut buffer = Buffer::new();
    into.extend_from_slice(buffer.format(a).as_bytes())?;
    into.extend_from_slice(unit.as_bytes())
}

fn put_seconds(s: u64, into: &mut Vec<u8>) -> Result<(), AllocError>
    ensures { OnOk result (into.new.items ≡ into.old.items ++ seconds_text s) }
{
    if s < 60 {
        put_one(s, " s", into)
    } else if s < 3_600 {
        put_two(s / 60, " min ", s % 60, " s", into)
    } else if s < 86_400 {
        put_two(s / 3_600, " h ", s / 60 % 60, " min", into)
    } else {
        put_two(s / 86_400, " d ", s / 3_600 % 24, " h", into)
    }
}

// How long ago a moment is.
pub(crate) fn age_text(alloc: Global, at: u64, moment: u64) -> Result<Vec<u8>, AllocError>
    ensures { IfOk result (λ text. text.items ≡ age_text at moment) }
{
    if moment == 0 {
        return Vec::from_slice(alloc, b"never");
    }
    let mut text = Vec::with_capacity(alloc, ROOM)?;
    put_seconds(at.saturating_sub(moment) / 1_000, &mut text)?;
    Ok(text)
}

#[tactic(auto, unfolding(crate::specs::Texts::tenths))]
fn put_tenths(whole: u64, tenth: u64, unit: &str, into: &mut Vec<u8>) -> Result<(), AllocError>
    ensures { OnOk result (into.new.items ≡ into.old.items ++ tenths whole tenth unit.now) }
{
    let mut first = Buffer::new();
    let mut second = Buffer::new();
    into.extend_from_slice(first.format(whole).as_bytes())?;
    into.extend_from_slice(b".")?;
    into.extend_from_slice(second.format(tenth).as_bytes())?;
    into.extend_from_slice(unit.as_bytes())
}

fn put_octets(n: u64, into: &mut Vec<u8>) -> Result<(), AllocError>
    ensures { OnOk result (into.new.items ≡ into.old.items ++ octets_text n) }
{
    if n < 1_000 {
        put_one(n, " B", into)
    } else if n < 1_000_000 {
        put_tenths(n / 1_000, n / 100 % 10, " kB", into)
    } else if n < 1_000_000_000 {
        put_tenths(n / 1_000_000, n / 100_000 % 10, " MB", into)
    } else {
        put_tenths(n / 1_000_000_000, n / 100_000_000 % 10, " GB", into)
    }
}

// So many octets.
pub(crate) fn octets_text(alloc: Global, n: u64) -> Result<Vec<u8>, AllocError>
    ensures { IfOk result (λ text. text.items ≡ octets_text n) }
{
    let mut text = Vec::with_capacity(alloc, ROOM)?;
    put_octets(n, &mut text)?;
    Ok(text)
}

#[tactic(auto, unfolding(crate::specs::Texts::padded))]
fn put_padded(n: u64, into: &mut Vec<u8>) -> Result<(), AllocError>
    ensures { OnOk result (into.new.items ≡ into.old.items ++ padded n) }
{
    let mut buffer = Buffer::new();
    let digits = buffer.format(n).as_bytes();
    if n < 10 {
        into.extend_from_slice(b"0")?;
        return into.extend_from_slice(digits);
    }
    into.extend_from_slice(digits)
}

// The time of the day of a moment.
#[tactic(auto, unfolding(crate::specs::Texts::time_text))]
pub(crate) fn time_text(alloc: Global, at: u64) -> Result<Vec<u8>, AllocError>
    ensures { IfOk result (λ text. text.items ≡ time_text at) }
{
    let mut text = Vec::with_capacity(alloc, ROOM)?;
    put_padded(at / 3_600_000 % 24, &mut text)?;
    text.extend_from_slice(b":")?;
    put_padded(at / 60_000 % 60, &mut text)?;
    text.extend_from_slice(b":")?;
    put_padded(at / 1_000 % 60, &mut text)?;
    Ok(text)
}
