// Entries are published in a turn.
ghost use Rattle.std.specs.Prelude.{◌≡◌, ◌<◌, OnOk, IsErrOf, IfOk, OnErr, if◌then◌else◌};
ghost use Rattle.station_book.specs.Named.{IsMadeBy};
ghost use Rattle.station_book.specs.State.{publish as publish_call, accepted, foreign};
ghost use Rattle.station_book.specs.declared.publish_fault.PublishFault.TheVariants as PublishFault;
ghost use Rattle.station_turns.specs.Turned.{IsReady, Publishes, Leaves};

use octet_core::Memory;
use record_form::Entries;
use station_book::laws::{legal_by, more_by, origin_by};
use station_book::{Book, Event, PublishFault, Station};
use std::sync::Wait;
use turn_lock::Pass;

// Publishes entries, names the call, and says whether it was accepted.
fn publish_named(book: &mut Book, entries: Entries) -> Result<(Event, bool), Memory>
    ensures made { IfOk result (λ r. IsMadeBy (publish_call entries) book.old book.new r.0) }
    ensures reply { IfOk result (λ r. r.0.reply ≡ (if r.1 then accepted else foreign)) }
    ensures err { OnErr result (book.new ≡ book.old) }
{
    let event = Event::publish(book, &entries);
    match book.publish(entries) {
        Ok(()) => Ok((event, true)),
        Err((PublishFault::Foreign, _)) => Ok((event, false)),
        Err((PublishFault::Memory, _)) => Err(Memory),
    }
}

// Publishes entries in a turn, and says whether they were accepted.
fn publish_in_turn<R: Wait>(
    rt: &R,
    station: &Station,
    pass: &mut Pass<Event>,
    entries: Entries,
) -> Result<bool, Memory>
    requires ready { IsReady station.now pass.old }
    requires left { 0 < pass.old.left }
    ensures ok { IfOk result (λ is_accepted. Publishes station.now entries
        (if is_accepted then accepted else foreign) pass.old pass.new) }
    ensures err { OnErr result (Leaves station.now pass.old pass.new) }
{
    let mut turn = station.enter(rt, pass);
    more_by();
    origin_by();
    legal_by();
    match publish_named(turn.value_mut(), entries) {
        Ok(told) => {
            station.commit_by(pass, turn, &told.0);
            Ok(told.1)
        }
        Err(Memory) => {
            station.leave(pass, turn);
            Err(Memory)
        }
    }
}

/// Publishes entries in a turn of its own. Where they don't follow the published ones, that is the
/// turn's event; after want of memory the turn was left.
pub fn publish<R: Wait>(
    rt: &R,
    station: &Station,
    pass: &mut Pass<Event>,
    entries: Entries,
) -> Result<(), PublishFault>
    requires ready { IsReady station.now pass.old }
    requires left { 0 < pass.old.left }
    ensures ok { OnOk result (Publishes station.now entries accepted pass.old pass.new) }
    ensures foreign { IsErrOf result PublishFault.Foreign
        → Publishes station.now entries foreign pass.old pass.new }
    ensures memory { IsErrOf result PublishFault.Memory → Leaves station.now pass.old pass.new }
{
    match publish_in_turn(rt, station, pass, entries) {
        Ok(true) => Ok(()),
        Ok(false) => Err(PublishFault::Foreign),
        Err(Memory) => Err(PublishFault::Memory),
    }
}
