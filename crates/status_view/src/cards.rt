// The cards of the page for people.
ghost use Rattle.std.specs.Prelude.{◌≡◌, ◌-◌, OnOk};
ghost use Rattle.picture_page.specs.Sheet.{Gains};
ghost use Rattle.status_view.specs.Parts.{count};
ghost use Rattle.status_view.specs.Page.{peer_text, entry_counts, source_lines, source_counts, source_fact};
ghost use Rattle.status_view.specs.Page.{source_facts, entries_card, clock_facts};
ghost use Rattle.status_view.specs.Page.{archive_store, archive_faults};
ghost use Rattle.status_view.specs.Page.{archive_facts, archive_card, antenna_facts, antenna_card};
ghost use Rattle.status_view.specs.Page.{sent_head, station_facts, station_card, cards};
ghost use Rattle.status_view.specs.Page.{entries_box, archive_box, antenna_box, station_box};

use crate::parts::{put_age, put_card_head, put_count, put_fact, put_faults, put_size};
use crate::texts::{age_text, octets_text};
use itoa::Buffer;
use picture_page::{Attribute, Name, Page, Tag};
use station_snapshot::Snapshot;
use std::alloc::{AllocError, Global};

// From where a source is connected.
#[tactic(auto, unfolding(crate::specs::Page::peer_text))]
fn peer_text(peer: &[u8]) -> &[u8]
    ensures { result.now ≡ peer_text peer.now }
{
    if peer.is_empty() {
        b"not connected"
    } else {
        peer
    }
}

#[tactic(auto, using(picture_page::specs::Sheet::gains_then))]
fn put_entry_counts(snapshot: &Snapshot, page: &mut Page)
    ensures { Gains page.old page.new (entry_counts snapshot.now) }
{
    let source = &snapshot.source;
    put_count("frames", source.frames, page);
    put_count("losses of synchronisation", source.losses, page);
    put_count("production changes", source.productions, page);
    put_count("seals", source.seals, page);
}

fn put_source_lines(snapshot: &Snapshot, page: &mut Page)
    ensures { Gains page.old page.new (source_lines snapshot.now) }
{
    put_count("lines", snapshot.source.lines, page);
    put_faults("faults", snapshot.source.faults, page);
}

fn put_source_counts(snapshot: &Snapshot, page: &mut Page)
    ensures { Gains page.old page.new (source_counts snapshot.now) }
{
    put_count("connections", snapshot.source.connections, page);
    put_source_lines(snapshot, page);
}

fn put_source(peer: &str, page: &mut Page)
    ensures { Gains page.old page.new (source_fact peer.now) }
{
    put_fact("source", "value", peer_text(peer.as_bytes()), page);
}

#[tactic(auto, using(picture_page::specs::Sheet::gains_then))]
fn put_source_facts(snapshot: &Snapshot, page: &mut Page)
    ensures { Gains page.old page.new (source_facts snapshot.now) }
{
    put_source_counts(snapshot, page);
    put_source(snapshot.source.peer.as_str(), page);
}

#[tactic(auto, using(picture_page::specs::Sheet::gains_then))]
fn put_entries_card(alloc: Global, snapshot: &Snapshot, page: &mut Page) -> Result<(), AllocError>
    ensures { OnOk result (Gains page.old page.new (entries_card snapshot.now)) }
{
    let first = age_text(alloc, snapshot.at, snapshot.source.entered)?;
    put_card_head("Entries", &first, "since the last", page);
    put_entry_counts(snapshot, page);
    put_source_facts(snapshot, page);
    Ok(())
}

#[tactic(auto, using(picture_page::specs::Sheet::gains_then))]
fn put_archive_store(alloc: Global, snapshot: &Snapshot, page: &mut Page) -> Result<(), AllocError>
    ensures { OnOk result (Gains page.old page.new (archive_store snapshot.now)) }
{
    let synced = snapshot.archive.synced;
    put_size(alloc, "capacity", snapshot.archive.capacity, page)?;
    put_age(alloc, "since the last sync", snapshot.at, synced, page)
}

fn put_archive_faults(snapshot: &Snapshot, page: &mut Page)
    ensures { Gains page.old page.new (archive_faults snapshot.now) }
{
    put_faults("failed syncs", snapshot.archive.failed_syncs, page);
    put_faults("other faults", snapshot.archive.faults, page);
}

#[tactic(auto, using(picture_page::specs::Sheet::gains_then))]
fn put_archive_facts(alloc: Global, snapshot: &Snapshot, page: &mut Page) -> Result<(), AllocError>
    ensures { OnOk result (Gains page.old page.new (archive_facts snapshot.now)) }
{
    put_archive_store(alloc, snapshot, page)?;
    put_archive_faults(snapshot, page);
    Ok(())
}

#[tactic(auto, using(picture_page::specs::Sheet::gains_then))]
fn put_archive_card(alloc: Global, snapshot: &Snapshot, page: &mut Page) -> Result<(), AllocError>
    ensures { OnOk result (Gains page.old page.new (archive_card snapshot.now)) }
{
    let first = octets_text(alloc, snapshot.archive.octets)?;
    put_card_head("Archive", &first, "in its file", page);
    put_archive_facts(alloc, snapshot, page)
}

#[tactic(auto, using(picture_page::specs::Sheet::gains_then))]
fn put_antenna_facts(alloc: Global, snapshot: &Snapshot, page: &mut Page) -> Result<(), AllocError>
    ensures { OnOk result (Gains page.old page.new (antenna_facts snapshot.now)) }
{
    let (at, antenna) = (snapshot.at, &snapshot.antenna);
    put_faults("failed", antenna.failed, page);
    put_age(alloc, "since the last", at, antenna.ended, page)?;
    put_age(alloc, "since the worker's turn", at, antenna.turned, page)
}

fn put_sent_head(n: u64, page: &mut Page)
    ensures { Gains page.old page.new (sent_head n) }
{
    let mut buffer = Buffer::new();
    put_card_head("Telecommands", buffer.format(n).as_bytes(), "sent", page);
}

#[tactic(auto, using(picture_page::specs::Sheet::gains_then))]
fn put_antenna_card(alloc: Global, snapshot: &Snapshot, page: &mut Page) -> Result<(), AllocError>
    ensures { OnOk result (Gains page.old page.new (antenna_card snapshot.now)) }
{
    put_sent_head(snapshot.antenna.sent, page);
    put_antenna_facts(alloc, snapshot, page)
}

// How far a moment is past another.
fn put_past(what: &str, a: u64, b: u64, page: &mut Page)
    ensures { Gains page.old page.new (count what.now (a - b)) }
{
    put_count(what, a.saturating_sub(b), page);
}

#[tactic(auto, using(picture_page::specs::Sheet::gains_then))]
fn put_clock(at: u64, wall: u64, page: &mut Page)
    ensures { Gains page.old page.new (clock_facts at wall) }
{
    put_past("clock ahead, ms", wall, at, page);
    put_past("clock behind, ms", at, wall, page);
}

#[tactic(auto, using(picture_page::specs::Sheet::gains_then))]
fn put_station_facts(alloc: Global, snapshot: &Snapshot, page: &mut Page) -> Result<(), AllocError>
    ensures { OnOk result (Gains page.old page.new (station_facts snapshot.now)) }
{
    put_age(
        alloc,
        "since the recorder's turn",
        snapshot.at,
        snapshot.recorder.turned,
        page,
    )?;
    put_clock(snapshot.at, snapshot.wall, page);
    Ok(())
}

#[tactic(auto, using(picture_page::specs::Sheet::gains_then))]
fn put_station_card(alloc: Global, snapshot: &Snapshot, page: &mut Page) -> Result<(), AllocError>
    ensures { OnOk result (Gains page.old page.new (station_card snapshot.now)) }
{
    let first = age_text(alloc, snapshot.at, snapshot.began)?;
    put_card_head("Station", &first, "since it began", page);
    put_station_facts(alloc, snapshot, page)
}

#[tactic(auto, using(picture_page::specs::Sheet::element_gains), unfolding(crate::specs::Page::entries_box))]
fn box_entries(alloc: Global, snapshot: &Snapshot, page: &mut Page) -> Result<(), AllocError>
    ensures { OnOk result (Gains page.old page.new (entries_box snapshot.now)) }
{
    page.begin(Tag::Div, &[Attribute::octets(Name::Class, b"card")]);
    put_entries_card(alloc, snapshot, page)?;
    page.end();
    Ok(())
}

#[tactic(auto, using(picture_page::specs::Sheet::element_gains), unfolding(crate::specs::Page::archive_box))]
fn box_archive(alloc: Global, snapshot: &Snapshot, page: &mut Page) -> Result<(), AllocError>
    ensures { OnOk result (Gains page.old page.new (archive_box snapshot.now)) }
{
    page.begin(Tag::Div, &[Attribute::octets(Name::Class, b"card")]);
    put_archive_card(alloc, snapshot, page)?;
    page.end();
    Ok(())
}

#[tactic(auto, using(picture_page::specs::Sheet::element_gains), unfolding(crate::specs::Page::antenna_box))]
fn box_antenna(alloc: Global, snapshot: &Snapshot, page: &mut Page) -> Result<(), AllocError>
    ensures { OnOk result (Gains page.old page.new (antenna_box snapshot.now)) }
{
    page.begin(Tag::Div, &[Attribute::octets(Name::Class, b"card")]);
    put_antenna_card(alloc, snapshot, page)?;
    page.end();
    Ok(())
}

#[tactic(auto, using(picture_page::specs::Sheet::element_gains), unfolding(crate::specs::Page::station_box))]
fn box_station(alloc: Global, snapshot: &Snapshot, page: &mut Page) -> Result<(), AllocError>
    ensures { OnOk result (Gains page.old page.new (station_box snapshot.now)) }
{
    page.begin(Tag::Div, &[Attribute::octets(Name::Class, b"card")]);
    put_station_card(alloc, snapshot, page)?;
    page.end();
    Ok(())
}

// All cards.
#[tactic(auto, using(picture_page::specs::Sheet::gains_then))]
pub(crate) fn put_cards(
    alloc: Global,
    snapshot: &Snapshot,
    page: &mut Page,
) -> Result<(), AllocError>
    ensures { OnOk result (Gains page.old page.new (cards snapshot.now)) }
{
    box_entries(alloc, snapshot, page)?;
    box_archive(alloc, snapshot, page)?;
    box_antenna(alloc, snapshot, page)?;
    box_station(alloc, snapshot, page)
}
