// The table of doors of the page for people.
ghost use Rattle.std.specs.Prelude.{◌≡◌, ◌++◌, OnOk};
ghost use Rattle.std.specs.List.{flat_map};
ghost use Rattle.picture_page.specs.Sheet.{Gains};
ghost use Rattle.status_view.specs.Page.{state_text, field, number, door_place, door_names, door_ages};
ghost use Rattle.status_view.specs.Page.{door_octets, door_counts, end_text, door_ends, door_fields};
ghost use Rattle.status_view.specs.Page.{door_row, title, first_titles, second_titles, third_titles};
ghost use Rattle.status_view.specs.Page.{late_fields, titles, table};

use crate::parts::put_cell;
use crate::texts::{age_text, octets_text};
use itoa::Buffer;
use picture_page::{Attribute, Name, Page, Tag};
use station_snapshot::{DoorNow, DoorState, EndNow, Snapshot};
use std::alloc::{AllocError, Global};

// What a door is doing, as a word and as the class of its row.
fn state_text(state: DoorState) -> &'static str
    ensures { result.now ≡ state_text state }
{
    match state {
        DoorState::Waiting => "free",
        DoorState::Serving => "serving",
        DoorState::Spent => "spent",
        DoorState::Failed => "failed",
        DoorState::Closed => "closed",
    }
}

fn put_field(text: &[u8], page: &mut Page)
    ensures { Gains page.old page.new (field text.now) }
{
    put_cell(Tag::Td, "t", text, page);
}

fn put_number(n: u64, page: &mut Page)
    ensures { Gains page.old page.new (number n) }
{
    let mut buffer = Buffer::new();
    put_cell(Tag::Td, "n", buffer.format(n).as_bytes(), page);
}

#[tactic(auto, using(picture_page::specs::Sheet::gains_then))]
fn put_place(door: &DoorNow, page: &mut Page)
    ensures { Gains page.old page.new (door_place door.now) }
{
    put_number(door.number, page);
    put_field(door.address.as_bytes(), page);
    put_field(state_text(door.state).as_bytes(), page);
}

#[tactic(auto, using(picture_page::specs::Sheet::gains_then))]
fn put_names(door: &DoorNow, page: &mut Page)
    ensures { Gains page.old page.new (door_names door.now) }
{
    put_field(door.peer.as_bytes(), page);
    put_field(door.user.as_bytes(), page);
    put_field(door.instance.as_bytes(), page);
}

#[tactic(auto, using(picture_page::specs::Sheet::gains_then))]
fn put_ages(alloc: Global, at: u64, door: &DoorNow, page: &mut Page) -> Result<(), AllocError>
    ensures { OnOk result (Gains page.old page.new (door_ages at door.now)) }
{
    let (since, heard) = (
        age_text(alloc, at, door.since)?,
        age_text(alloc, at, door.heard)?,
    );
    put_field(&since, page);
    put_field(&heard, page);
    Ok(())
}

#[tactic(auto, using(picture_page::specs::Sheet::gains_then))]
fn put_octets(alloc: Global, door: &DoorNow, page: &mut Page) -> Result<(), AllocError>
    ensures { OnOk result (Gains page.old page.new (door_octets door.now)) }
{
    let (came, went) = (
        octets_text(alloc, door.octets_in)?,
        octets_text(alloc, door.octets_out)?,
    );
    put_field(&came, page);
    put_field(&went, page);
    Ok(())
}

#[tactic(auto, using(picture_page::specs::Sheet::gains_then))]
fn put_counts(door: &DoorNow, page: &mut Page)
    ensures { Gains page.old page.new (door_counts door.now) }
{
    put_number(door.stalls, page);
    put_number(door.faults, page);
    put_number(door.links, page);
    put_number(door.most_links, page);
}

#[tactic(auto, using(picture_page::specs::Sheet::gains_then, picture_page::specs::Sheet::gains_nothing))]
fn put_each_end(ends: &[EndNow], page: &mut Page)
    ensures { Gains page.old page.new (flat_map end_text ends.now) }
{
    for end in ends {
        put_cell(Tag::Div, "end", end.how.as_bytes(), page);
    }
}

#[tactic(auto, using(picture_page::specs::Sheet::element_gains))]
fn put_ends(ends: &[EndNow], page: &mut Page)
    ensures { Gains page.old page.new (door_ends ends.now) }
{
    page.begin(Tag::Td, &[Attribute::octets(Name::Class, b"ends")]);
    put_each_end(ends, page);
    page.end();
}

#[tactic(auto, using(picture_page::specs::Sheet::gains_then))]
fn put_late_fields(alloc: Global, door: &DoorNow, page: &mut Page) -> Result<(), AllocError>
    ensures { OnOk result (Gains page.old page.new (late_fields door.now)) }
{
    put_octets(alloc, door, page)?;
    put_counts(door, page);
    put_ends(door.ends.as_slice(), page);
    Ok(())
}

#[tactic(auto, using(picture_page::specs::Sheet::gains_then))]
fn put_fields(alloc: Global, at: u64, door: &DoorNow, page: &mut Page) -> Result<(), AllocError>
    ensures { OnOk result (Gains page.old page.new (door_fields at door.now)) }
{
    put_place(door, page);
    put_names(door, page);
    put_ages(alloc, at, door, page)?;
    put_late_fields(alloc, door, page)
}

#[tactic(auto, using(picture_page::specs::Sheet::element_gains), unfolding(crate::specs::Page::door_row))]
fn put_row(alloc: Global, at: u64, door: &DoorNow, page: &mut Page) -> Result<(), AllocError>
    ensures { OnOk result (Gains page.old page.new (door_row at door.now)) }
{
    let of = state_text(door.state);
    page.begin(Tag::Tr, &[Attribute::octets(Name::Class, of.as_bytes())]);
    put_fields(alloc, at, door, page)?;
    page.end();
    Ok(())
}

#[tactic(auto, using(picture_page::specs::Sheet::gains_then, picture_page::specs::Sheet::gains_nothing))]
fn put_rows(alloc: Global, at: u64, doors: &[DoorNow], page: &mut Page) -> Result<(), AllocError>
    ensures { OnOk result (Gains page.old page.new (flat_map (door_row at) doors.now)) }
{
    for door in doors {
        put_row(alloc, at, door, page)?;
    }
    Ok(())
}

fn put_title(text: &str, page: &mut Page)
    ensures { Gains page.old page.new (title text.now) }
{
    put_cell(Tag::Th, "h", text.as_bytes(), page);
}

#[tactic(auto, using(picture_page::specs::Sheet::gains_then))]
fn put_first_titles(page: &mut Page)
    ensures { Gains page.old page.new first_titles }
{
    put_title("door", page);
    put_title("address", page);
    put_title("state", page);
    put_title("peer", page);
    put_title("user", page);
}

#[tactic(auto, using(picture_page::specs::Sheet::gains_then))]
fn put_second_titles(page: &mut Page)
    ensures { Gains page.old page.new second_titles }
{
    put_title("instance", page);
    put_title("connected", page);
    put_title("heard", page);
    put_title("in", page);
    put_title("out", page);
}

#[tactic(auto, using(picture_page::specs::Sheet::gains_then))]
fn put_third_titles(page: &mut Page)
    ensures { Gains page.old page.new third_titles }
{
    put_title("stalls", page);
    put_title("faults", page);
    put_title("links", page);
    put_title("of", page);
    put_title("last ends", page);
}

#[tactic(auto, using(picture_page::specs::Sheet::gains_then))]
fn put_all_titles(page: &mut Page)
    ensures { Gains page.old page.new (first_titles ++ second_titles ++ third_titles) }
{
    put_first_titles(page);
    put_second_titles(page);
    put_third_titles(page);
}

#[tactic(auto, using(picture_page::specs::Sheet::element_gains))]
fn put_titles(page: &mut Page)
    ensures { Gains page.old page.new titles }
{
    page.begin(Tag::Tr, &[Attribute::octets(Name::Class, b"head")]);
    put_all_titles(page);
    page.end();
}

#[tactic(auto, using(picture_page::specs::Sheet::gains_then))]
fn put_inside(alloc: Global, snapshot: &Snapshot, page: &mut Page) -> Result<(), AllocError>
    ensures { OnOk result (Gains page.old page.new
        (titles ++ flat_map (door_row snapshot.now.at) snapshot.now.doors.items)) }
{
    put_titles(page);
    put_rows(alloc, snapshot.at, snapshot.doors.as_slice(), page)
}

// The table of the doors.
#[tactic(auto, using(picture_page::specs::Sheet::element_gains), unfolding(crate::specs::Page::table))]
pub(crate) fn put_table(
    alloc: Global,
    snapshot: &Snapshot,
    page: &mut Page,
) -> Result<(), AllocError>
    ensures { OnOk result (Gains page.old page.new (table snapshot.now)) }
{
    page.begin(Tag::Table, &[Attribute::octets(Name::Class, b"doors")]);
    put_inside(alloc, snapshot, page)?;
    page.end();
    Ok(())
}
