// The status as JSON.
ghost use Rattle.std.specs.Prelude.{◌≡◌, ◌++◌, OnOk, IfOk};
ghost use Rattle.std.specs.List.{flat_map};
ghost use Rattle.status_page.specs.Json.{member_of, door_member_of, door_places, door_names};
ghost use Rattle.status_page.specs.Json.{door_members, door_tokens, doors_tokens, head_members};
ghost use Rattle.status_page.specs.Json.{members, status_tokens, json_text};

use crate::door_number::DoorNumber;
use crate::json_parts::{put_ends, put_flag, put_number, put_text, put_troubles, state_word};
use crate::number::Number;
use json::Writer;
use station_health::is_healthy;
use station_snapshot::{DoorNow, Snapshot};
use std::alloc::{AllocError, Global};

// How many octets a status has room for before it grows.
const ROOM: usize = 4_096;

fn put_numbers(snapshot: &Snapshot, numbers: &[Number], into: &mut Writer) -> Result<(), AllocError>
    ensures tokens { OnOk result (into.new.tokens
        ≡ into.old.tokens ++ flat_map (member_of snapshot.now) numbers.now) }
    ensures before { into.new.before ≡ into.old.before }
{
    for number in numbers {
        put_number(number.word(), number.of(snapshot), into)?;
    }
    Ok(())
}

fn put_door_numbers(
    door: &DoorNow,
    numbers: &[DoorNumber],
    into: &mut Writer,
) -> Result<(), AllocError>
    ensures tokens { OnOk result (into.new.tokens
        ≡ into.old.tokens ++ flat_map (door_member_of door.now) numbers.now) }
    ensures before { into.new.before ≡ into.old.before }
{
    for number in numbers {
        put_number(number.word(), number.of(door), into)?;
    }
    Ok(())
}

#[tactic(auto, unfolding(crate::specs::Json::door_places))]
fn put_door_places(door: &DoorNow, into: &mut Writer) -> Result<(), AllocError>
    ensures tokens { OnOk result (into.new.tokens ≡ into.old.tokens ++ door_places door.now) }
    ensures before { into.new.before ≡ into.old.before }
{
    put_number("door", door.number, into)?;
    put_text("address", door.address.as_str(), into)?;
    put_text("state", state_word(door.state), into)
}

#[tactic(auto, unfolding(crate::specs::Json::door_names))]
fn put_door_names(door: &DoorNow, into: &mut Writer) -> Result<(), AllocError>
    ensures tokens { OnOk result (into.new.tokens ≡ into.old.tokens ++ door_names door.now) }
    ensures before { into.new.before ≡ into.old.before }
{
    put_text("peer", door.peer.as_str(), into)?;
    put_text("user", door.user.as_str(), into)?;
    put_text("instance", door.instance.as_str(), into)
}

#[tactic(auto, unfolding(crate::specs::Json::door_members))]
fn put_door_members(door: &DoorNow, into: &mut Writer) -> Result<(), AllocError>
    ensures tokens { OnOk result (into.new.tokens ≡ into.old.tokens ++ door_members door.now) }
    ensures before { into.new.before ≡ into.old.before }
{
    put_door_places(door, into)?;
    put_door_names(door, into)?;
    put_door_numbers(door, DoorNumber::all(), into)?;
    put_ends(door.ends.as_slice(), into)
}

#[tactic(auto, unfolding(crate::specs::Json::door_tokens))]
fn put_door(door: &DoorNow, into: &mut Writer) -> Result<(), AllocError>
    ensures tokens { OnOk result (into.new.tokens ≡ into.old.tokens ++ door_tokens door.now) }
    ensures before { into.new.before ≡ into.old.before }
{
    into.begin_object()?;
    put_door_members(door, into)?;
    into.end_object()
}

fn put_each_door(doors: &[DoorNow], into: &mut Writer) -> Result<(), AllocError>
    ensures tokens { OnOk result (into.new.tokens
        ≡ into.old.tokens ++ flat_map door_tokens doors.now) }
    ensures before { into.new.before ≡ into.old.before }
{
    for door in doors {
        put_door(door, into)?;
    }
    Ok(())
}

#[tactic(auto, unfolding(crate::specs::Json::doors_tokens))]
fn put_doors(doors: &[DoorNow], into: &mut Writer) -> Result<(), AllocError>
    ensures tokens { OnOk result (into.new.tokens ≡ into.old.tokens ++ doors_tokens doors.now) }
    ensures before { into.new.before ≡ into.old.before }
{
    into.key("doors")?;
    into.begin_array()?;
    put_each_door(doors, into)?;
    into.end_array()
}

#[tactic(auto, unfolding(crate::specs::Json::head_members))]
fn put_head(snapshot: &Snapshot, into: &mut Writer) -> Result<(), AllocError>
    ensures tokens { OnOk result (into.new.tokens ≡ into.old.tokens ++ head_members snapshot.now) }
    ensures before { into.new.before ≡ into.old.before }
{
    put_flag("healthy", is_healthy(snapshot), into)?;
    put_text("version", snapshot.version.as_str(), into)?;
    put_text("source_address", snapshot.source.address.as_str(), into)?;
    put_text("source_peer", snapshot.source.peer.as_str(), into)
}

#[tactic(auto, unfolding(crate::specs::Json::members))]
fn put_members(snapshot: &Snapshot, into: &mut Writer) -> Result<(), AllocError>
    ensures tokens { OnOk result (into.new.tokens ≡ into.old.tokens ++ members snapshot.now) }
    ensures before { into.new.before ≡ into.old.before }
{
    put_head(snapshot, into)?;
    put_troubles(snapshot, into)?;
    put_numbers(snapshot, Number::all(), into)?;
    put_doors(snapshot.doors.as_slice(), into)
}

fn put_status(snapshot: &Snapshot, into: &mut Writer) -> Result<(), AllocError>
    ensures tokens { OnOk result (into.new.tokens
        ≡ into.old.tokens ++ status_tokens snapshot.now) }
    ensures before { into.new.before ≡ into.old.before }
{
    into.begin_object()?;
    put_members(snapshot, into)?;
    into.end_object()
}

/// The status as JSON.
pub fn json_text(alloc: Global, snapshot: &Snapshot) -> Result<Vec<u8>, AllocError>
    ensures { IfOk result (λ text. text.items ≡ json_text snapshot.now) }
{
    let mut writer = Writer::new(Vec::with_capacity(alloc, ROOM)?);
    put_status(snapshot, &mut writer)?;
    Ok(writer.into_inner())
}
