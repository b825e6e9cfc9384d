// The top of the page for people, and its verdict.
ghost use Rattle.std.specs.Prelude.{◌≡◌, OnOk};
ghost use Rattle.std.specs.List.{flat_map};
ghost use Rattle.picture_page.specs.Sheet.{Gains};
ghost use Rattle.station_health.specs.Health.{line_of};
ghost use Rattle.status_view.specs.Page.{top_parts, verdict_word, verdict_class, trouble_part};
ghost use Rattle.status_view.specs.Page.{verdict_parts, verdict};

use crate::parts::put_cell;
use crate::texts::time_text;
use picture_page::{Attribute, Name, Page, Tag};
use station_health::{Trouble, is_healthy};
use station_snapshot::Snapshot;
use std::alloc::{AllocError, Global};

// What the station is, which program, and its time.
#[tactic(auto, using(picture_page::specs::Sheet::gains_then))]
pub(crate) fn put_top_parts(
    alloc: Global,
    snapshot: &Snapshot,
    page: &mut Page,
) -> Result<(), AllocError>
    ensures { OnOk result (Gains page.old page.new (top_parts snapshot.now)) }
{
    let time = time_text(alloc, snapshot.at)?;
    put_cell(Tag::H1, "what", b"Ground station", page);
    put_cell(Tag::Span, "version", snapshot.version.as_bytes(), page);
    put_cell(Tag::Span, "time", &time, page);
    put_cell(Tag::Span, "zone", b"UTC", page);
    Ok(())
}

fn verdict_word(is_healthy: bool) -> &'static str
    ensures { result.now ≡ verdict_word is_healthy }
{
    if is_healthy { "Healthy" } else { "Unhealthy" }
}

fn verdict_class(is_healthy: bool) -> &'static str
    ensures { result.now ≡ verdict_class is_healthy }
{
    if is_healthy {
        "verdict well"
    } else {
        "verdict ill"
    }
}

// A trouble, if it is there.
#[tactic(auto, using(picture_page::specs::Sheet::gains_nothing))]
fn put_trouble(
    alloc: Global,
    snapshot: &Snapshot,
    trouble: Trouble,
    page: &mut Page,
) -> Result<(), AllocError>
    ensures { OnOk result (Gains page.old page.new (trouble_part snapshot.now trouble)) }
{
    if !trouble.is_there(snapshot) {
        return Ok(());
    }
    let line = trouble.line(alloc)?;
    put_cell(Tag::P, "trouble", &line, page);
    Ok(())
}

#[tactic(auto, using(picture_page::specs::Sheet::gains_then, picture_page::specs::Sheet::gains_nothing))]
fn put_troubles(
    alloc: Global,
    snapshot: &Snapshot,
    troubles: &[Trouble],
    page: &mut Page,
) -> Result<(), AllocError>
    ensures { OnOk result (Gains page.old page.new
        (flat_map (trouble_part snapshot.now) troubles.now)) }
{
    for trouble in troubles {
        put_trouble(alloc, snapshot, *trouble, page)?;
    }
    Ok(())
}

#[tactic(auto, using(picture_page::specs::Sheet::gains_then))]
fn put_verdict_parts(alloc: Global, snapshot: &Snapshot, page: &mut Page) -> Result<(), AllocError>
    ensures { OnOk result (Gains page.old page.new (verdict_parts snapshot.now)) }
{
    let word = verdict_word(is_healthy(snapshot));
    put_cell(Tag::Div, "word", word.as_bytes(), page);
    put_troubles(alloc, snapshot, Trouble::all(), page)
}

// Whether the station is healthy, and each trouble that is there.
#[tactic(auto, using(picture_page::specs::Sheet::element_gains), unfolding(crate::specs::Page::verdict))]
pub(crate) fn put_verdict(
    alloc: Global,
    snapshot: &Snapshot,
    page: &mut Page,
) -> Result<(), AllocError>
    ensures { OnOk result (Gains page.old page.new (verdict snapshot.now)) }
{
    let of = verdict_class(is_healthy(snapshot));
    page.begin(Tag::Div, &[Attribute::octets(Name::Class, of.as_bytes())]);
    put_verdict_parts(alloc, snapshot, page)?;
    page.end();
    Ok(())
}
