// Whether a station is healthy.
ghost use Rattle.std.specs.Prelude.{◌≡◌, ◌++◌, OnOk, IfOk};
ghost use Rattle.std.specs.List.{flat_map, list_any};
ghost use Rattle.station_health.specs.Health.{harms, is_healthy, weight_word, line_of, trouble_line};
ghost use Rattle.station_health.specs.Health.{verdict, health_text};

use crate::trouble::Trouble;
use station_snapshot::Snapshot;
use std::alloc::{AllocError, Global};

// True if one of these troubles is serious, and there.
fn any_harms(snapshot: &Snapshot, troubles: &[Trouble]) -> bool
    ensures { result ≡ list_any (λ trouble. harms snapshot.now trouble) troubles.now }
{
    troubles.iter().any(|trouble| trouble.harms(snapshot))
}

/// True if a station that shows this is healthy: no serious trouble is there.
pub fn is_healthy(snapshot: &Snapshot) -> bool
    ensures { result ≡ is_healthy snapshot.now }
{
    !any_harms(snapshot, Trouble::all())
}

fn weight_word(is_serious: bool) -> &'static str
    ensures { result.now ≡ weight_word is_serious }
{
    if is_serious { "failure: " } else { "warning: " }
}

fn verdict(is_healthy: bool) -> &'static str
    ensures { result.now ≡ verdict is_healthy }
{
    if is_healthy {
        "healthy\n"
    } else {
        "unhealthy\n"
    }
}

impl Trouble {
    /// What is wrong and what to do, as a line.
    pub fn line(self, alloc: Global) -> Result<Vec<u8>, AllocError>
        ensures { IfOk result (λ line. line.items ≡ line_of self) }
    {
        let mut line = Vec::new(alloc);
        put_line(self, &mut line)?;
        Ok(line)
    }
}

#[tactic(auto, unfolding(crate::specs::Health::line_of))]
fn put_line(trouble: Trouble, into: &mut Vec<u8>) -> Result<(), AllocError>
    ensures { OnOk result (into.new.items ≡ into.old.items ++ line_of trouble) }
{
    into.extend_from_slice(weight_word(trouble.is_serious()).as_bytes())?;
    into.extend_from_slice(trouble.words().as_bytes())?;
    into.extend_from_slice(b"; ")?;
    into.extend_from_slice(trouble.advice().as_bytes())?;
    into.extend_from_slice(b"\n")
}

// Appends the line of a trouble, if it is there.
fn put_trouble(snapshot: &Snapshot, trouble: Trouble, into: &mut Vec<u8>) -> Result<(), AllocError>
    ensures { OnOk result (into.new.items ≡ into.old.items ++ trouble_line snapshot.now trouble) }
{
    if trouble.is_there(snapshot) {
        put_line(trouble, into)
    } else {
        Ok(())
    }
}

// Appends the lines of those of these troubles that are there.
fn put_troubles(
    snapshot: &Snapshot,
    troubles: &[Trouble],
    into: &mut Vec<u8>,
) -> Result<(), AllocError>
    ensures { OnOk result (into.new.items
        ≡ into.old.items ++ flat_map (trouble_line snapshot.now) troubles.now) }
{
    for trouble in troubles {
        put_trouble(snapshot, *trouble, into)?;
    }
    Ok(())
}

/// Whether a station that shows this is healthy, and each trouble that is there, a line each.
pub fn health_text(alloc: Global, snapshot: &Snapshot) -> Result<Vec<u8>, AllocError>
    ensures { IfOk result (λ text. text.items ≡ health_text snapshot.now) }
{
    let mut text = Vec::from_slice(alloc, verdict(is_healthy(snapshot)).as_bytes())?;
    put_troubles(snapshot, Trouble::all(), &mut text)?;
    Ok(text)
}
