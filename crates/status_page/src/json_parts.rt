// The parts of the status as JSON.
ghost use Rattle.std.specs.Prelude.{◌≡◌, ◌++◌, OnOk};
ghost use Rattle.std.specs.List.{flat_map};
ghost use Rattle.status_page.specs.Json.{number_member, text_member, flag_member, trouble_members};
ghost use Rattle.status_page.specs.Json.{trouble_tokens, tokens_if_there, troubles_tokens, state_word, end_tokens};
ghost use Rattle.status_page.specs.Json.{seconds_member, end_words, end_members};
ghost use Rattle.status_page.specs.Json.{ends_tokens};

use json::Writer;
use station_health::Trouble;
use station_snapshot::{DoorState, EndNow, Snapshot};
use std::alloc::AllocError;

#[tactic(auto, unfolding(crate::specs::Json::number_member))]
pub(crate) fn put_number(name: &str, value: u64, into: &mut Writer) -> Result<(), AllocError>
    ensures tokens { OnOk result
        (into.new.tokens ≡ into.old.tokens ++ number_member name.now value) }
    ensures before { into.new.before ≡ into.old.before }
{
    into.key(name)?;
    into.u64(value)
}

// A moment in milliseconds, as seconds.
#[tactic(auto, unfolding(crate::specs::Json::seconds_member))]
fn put_seconds(name: &str, millis: u64, into: &mut Writer) -> Result<(), AllocError>
    ensures tokens { OnOk result
        (into.new.tokens ≡ into.old.tokens ++ seconds_member name.now millis) }
    ensures before { into.new.before ≡ into.old.before }
{
    put_number(name, millis / 1_000, into)
}

#[tactic(auto, unfolding(crate::specs::Json::text_member))]
pub(crate) fn put_text(name: &str, text: &str, into: &mut Writer) -> Result<(), AllocError>
    ensures tokens { OnOk result
        (into.new.tokens ≡ into.old.tokens ++ text_member name.now text.now) }
    ensures before { into.new.before ≡ into.old.before }
{
    into.key(name)?;
    into.string(text)
}

#[tactic(auto, unfolding(crate::specs::Json::flag_member))]
pub(crate) fn put_flag(name: &str, value: bool, into: &mut Writer) -> Result<(), AllocError>
    ensures tokens { OnOk result
        (into.new.tokens ≡ into.old.tokens ++ flag_member name.now value) }
    ensures before { into.new.before ≡ into.old.before }
{
    into.key(name)?;
    into.boolean(value)
}

#[tactic(auto, unfolding(crate::specs::Json::trouble_members))]
fn put_trouble_members(trouble: Trouble, into: &mut Writer) -> Result<(), AllocError>
    ensures tokens { OnOk result (into.new.tokens ≡ into.old.tokens ++ trouble_members trouble) }
    ensures before { into.new.before ≡ into.old.before }
{
    put_text("name", trouble.name(), into)?;
    put_flag("serious", trouble.is_serious(), into)?;
    put_text("words", trouble.words(), into)?;
    put_text("advice", trouble.advice(), into)
}

#[tactic(auto, unfolding(crate::specs::Json::trouble_tokens))]
fn put_trouble(trouble: Trouble, into: &mut Writer) -> Result<(), AllocError>
    ensures tokens { OnOk result (into.new.tokens ≡ into.old.tokens ++ trouble_tokens trouble) }
    ensures before { into.new.before ≡ into.old.before }
{
    into.begin_object()?;
    put_trouble_members(trouble, into)?;
    into.end_object()
}

fn put_if_there(snapshot: &Snapshot, trouble: Trouble, into: &mut Writer) -> Result<(), AllocError>
    ensures tokens { OnOk result (into.new.tokens
        ≡ into.old.tokens ++ tokens_if_there snapshot.now trouble) }
    ensures before { into.new.before ≡ into.old.before }
{
    if trouble.is_there(snapshot) {
        put_trouble(trouble, into)
    } else {
        Ok(())
    }
}

fn put_each_trouble(
    snapshot: &Snapshot,
    troubles: &[Trouble],
    into: &mut Writer,
) -> Result<(), AllocError>
    ensures tokens { OnOk result (into.new.tokens
        ≡ into.old.tokens ++ flat_map (tokens_if_there snapshot.now) troubles.now) }
    ensures before { into.new.before ≡ into.old.before }
{
    for trouble in troubles {
        put_if_there(snapshot, *trouble, into)?;
    }
    Ok(())
}

// The troubles that are there.
#[tactic(auto, unfolding(crate::specs::Json::troubles_tokens))]
pub(crate) fn put_troubles(snapshot: &Snapshot, into: &mut Writer) -> Result<(), AllocError>
    ensures tokens { OnOk result (into.new.tokens
        ≡ into.old.tokens ++ troubles_tokens snapshot.now) }
    ensures before { into.new.before ≡ into.old.before }
{
    into.key("troubles")?;
    into.begin_array()?;
    put_each_trouble(snapshot, Trouble::all(), into)?;
    into.end_array()
}

pub(crate) fn state_word(state: DoorState) -> &'static str
    ensures { result.now ≡ state_word state }
{
    match state {
        DoorState::Waiting => "waiting",
        DoorState::Serving => "serving",
        DoorState::Spent => "spent",
        DoorState::Failed => "failed",
        DoorState::Closed => "closed",
    }
}

// With whom and how a serving ended.
#[tactic(auto, unfolding(crate::specs::Json::end_words))]
fn put_end_words(end: &EndNow, into: &mut Writer) -> Result<(), AllocError>
    ensures tokens { OnOk result (into.new.tokens ≡ into.old.tokens ++ end_words end.now) }
    ensures before { into.new.before ≡ into.old.before }
{
    put_text("peer", end.peer.as_str(), into)?;
    put_text("how", end.how.as_str(), into)
}

// When, with whom and how a serving ended.
#[tactic(auto, unfolding(crate::specs::Json::end_members))]
fn put_end_members(end: &EndNow, into: &mut Writer) -> Result<(), AllocError>
    ensures tokens { OnOk result (into.new.tokens ≡ into.old.tokens ++ end_members end.now) }
    ensures before { into.new.before ≡ into.old.before }
{
    put_seconds("time_seconds", end.at, into)?;
    put_end_words(end, into)
}

#[tactic(auto, unfolding(crate::specs::Json::end_tokens))]
fn put_end(end: &EndNow, into: &mut Writer) -> Result<(), AllocError>
    ensures tokens { OnOk result (into.new.tokens ≡ into.old.tokens ++ end_tokens end.now) }
    ensures before { into.new.before ≡ into.old.before }
{
    into.begin_object()?;
    put_end_members(end, into)?;
    into.end_object()
}

fn put_each_end(ends: &[EndNow], into: &mut Writer) -> Result<(), AllocError>
    ensures tokens { OnOk result (into.new.tokens
        ≡ into.old.tokens ++ flat_map end_tokens ends.now) }
    ensures before { into.new.before ≡ into.old.before }
{
    for end in ends {
        put_end(end, into)?;
    }
    Ok(())
}

// How the last servings of a door ended.
#[tactic(auto, unfolding(crate::specs::Json::ends_tokens))]
pub(crate) fn put_ends(ends: &[EndNow], into: &mut Writer) -> Result<(), AllocError>
    ensures tokens { OnOk result (into.new.tokens ≡ into.old.tokens ++ ends_tokens ends.now) }
    ensures before { into.new.before ≡ into.old.before }
{
    into.key("ends")?;
    into.begin_array()?;
    put_each_end(ends, into)?;
    into.end_array()
}
