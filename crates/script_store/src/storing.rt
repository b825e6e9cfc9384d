// Steps of the recorder that store one entry in an archive on a disk in memory, as a script orders
// them. The disk is told the order that hits the step's first store, and no order behind the step.
// Where the power failed, the disk is started again, and the archive opened by what its file holds.
// At every moment of each call, also of one that wants memory, the file holds what is stored whole
// or not at all.
ghost use Rattle.std.specs.Prelude.{◌≡◌, ◌<◌, true, false, List, [], None, IfOk, IfErr, OnOk};
ghost use Rattle.std.specs.Prelude.{OnErr, IfSome, IsTrue, is_some, nat_lt};
ghost use Rattle.archive_terms.specs.Archive.{is_valid};
ghost use Rattle.archive_terms.specs.Archive as terms;
ghost use Rattle.record_form.specs.Entry.{entry_of};
ghost use Rattle.frame_archive.specs.State.{refusal};
ghost use Rattle.frame_archive.specs.Run.{Adds, Keeps};
ghost use Rattle.script_store.specs.Store.{Store};
ghost use Rattle.script_store.specs.IsHeld.{told_by, Rests, HoldsAllOrNone, KeepsAllOrNone};
ghost use Rattle.script_store.specs.IsHeld.{IsOfOffer};
ghost use Rattle.script_store.specs.Storing.{hitting, told_orders, taken_of};
ghost use Rattle.script_store.specs.Storing.{StoresOne, HoldsThen, LeavesOne, IsMissed, IsDown};
ghost use Rattle.script_store.specs.Storing.{IsSettled, IsUnstored, IsWhy, IsEnded, IsRestarted};
ghost use Rattle.script_store.specs.Storing.{missed_by, has_stopped};
ghost use Rattle.recorder.specs.declared.record_fault.RecordFault.TheVariants as RecordFault;

use crate::one_entry::{Given, OneEntry};
use crate::order::{Order, Strike, no_orders, stop_at_once};
use crate::refusal::Refusal;
use crate::shared::share;
use disk_model::{MemoryDisk, Orders, Pick};
use frame_archive::{FrameArchive, OfferFault};
use octet_core::Memory;
use record_form::{Entries, Entry};
use recorder::{RecordFault, Recorded, record_step};
use std::alloc::Global;
use std::marker::Brand;

/// What became of an entry that was taken.
#[derive(Debug, Drop)]
pub enum Settled {
    /// It was stored.
    Stored,
    /// The power failed, and the file holds these entries.
    Crashed(Entries),
    /// The store failed, and the file held so many entries. It is stored now.
    Failed { entries: u64 },
}

/// Why an entry isn't stored.
#[derive(Clone, Copy, Debug)]
pub enum Unstored {
    /// The archive doesn't take it.
    Refused(Refusal),
    /// Memory was refused, and the file may hold it.
    Begun,
    /// Memory was refused, and the file holds nothing of it.
    Unbegun,
}

/// Why a step of the recorder isn't Ok.
#[derive(Clone, Copy, Debug)]
pub enum Missed {
    /// The disk failed by its orders.
    Broken,
    /// Memory was refused, and the file may hold the entry.
    Begun,
    /// Memory was refused, and the file holds nothing of it.
    Unbegun,
}

// Offers an entry and stores it, while this order stands for the disk.
pub fn store_under(
    archive: &mut FrameArchive<MemoryDisk>,
    alloc: Global,
    order: Option<Order>,
    entry: &Entry,
) -> Result<Settled, Unstored>
    requires valid { IsTrue (is_valid (entry_of entry.now)) }
    requires to_come { IfSome order (λ o. 0 < o.calls) }
    requires rests { (published : List terms.Entry) × Rests archive.old published }
    ensures settled { IfOk result (λ settled. (state : Store) → state.order ≡ order
        → Rests archive.old state.published
        → IsSettled state (entry_of entry.now) archive.new settled) }
    ensures taken { OnOk result (refusal archive.old (entry_of entry.now) ≡ None) }
    ensures unstored { IfErr result (λ why. (published : List terms.Entry)
        → Rests archive.old published
        → IsUnstored why archive.old published (entry_of entry.now) archive.new) }
    ensures images { (published : List terms.Entry) → Rests archive.old published
        → KeepsAllOrNone archive.old.disk archive.new.disk published
        (taken_of archive.old (entry_of entry.now)) }
    ensures capacity { archive.new.capacity ≡ archive.old.capacity }
{
    gate_journal::laws::a_stop_leaves_whole_batches();
    gate_journal::laws::a_fault_leaves_whole_batches();
    gate_journal::laws::a_batch_may_follow();
    gate_journal::laws::a_file_stands_for_one_list();
    gate_journal::laws::an_image_at_rest_stands_for_what_is_kept();
    let Ok(given) = share(entry) else {
        return Err(Unstored::Unbegun);
    };
    let strike = hitting(order);
    let Ok(orders) = orders_told(alloc, strike) else {
        return Err(Unstored::Unbegun);
    };
    archive.steer(orders);
    let recorded = record_one(archive, alloc, given);
    archive.steer(no_orders(alloc));
    match recorded {
        Ok(recorded) => ended(recorded, strike),
        Err(missed) => restarted(archive, missed, strike),
    }
}

// The order that hits a store, of the one that stands.
fn hitting(order: Option<Order>) -> Option<Order>
    ensures { result ≡ hitting order }
{
    match order {
        Some(order) if order.is_hit() => Some(order),
        _ => None,
    }
}

// What the disk is told before a store.
fn orders_told(alloc: Global, strike: Option<Order>) -> Result<Orders, Memory>
    ensures { IfOk result (λ orders. orders ≡ told_orders strike) }
{
    match strike {
        Some(order) => order.orders(alloc),
        None => Ok(no_orders(alloc)),
    }
}

// What a step that is Ok has come to, under the order that hit it.
fn ended(recorded: Recorded, strike: Option<Order>) -> Result<Settled, Unstored>
    requires { IfSome recorded.refusal IsOfOffer }
    ensures { IsEnded (is_some strike) recorded.refusal recorded.reopened result }
{
    if let Some(fault) = recorded.refusal {
        return Err(why(fault));
    }
    match (strike, recorded.reopened) {
        (Some(_), Some(entries)) => Ok(Settled::Failed { entries }),
        _ => Ok(Settled::Stored),
    }
}

// Why an entry isn't stored, by the cause of the archive's refusal.
fn why(fault: OfferFault) -> Unstored
    requires { IsOfOffer fault }
    ensures { IsWhy fault result }
{
    match Refusal::of(fault) {
        Ok(why) => Unstored::Refused(why),
        Err(_) => Unstored::Unbegun,
    }
}

// What a step that isn't Ok has come to: where the power failed, the disk is started again.
fn restarted(
    archive: &mut FrameArchive<MemoryDisk>,
    missed: Missed,
    strike: Option<Order>,
) -> Result<Settled, Unstored>
    ensures restarted { IsRestarted missed strike archive.old archive.new result }
    ensures images { (published batch : List terms.Entry)
        → HoldsAllOrNone archive.old.disk published batch
        → KeepsAllOrNone archive.old.disk archive.new.disk published batch }
    ensures capacity { archive.new.capacity ≡ archive.old.capacity }
{
    if let Missed::Unbegun = missed {
        return Err(Unstored::Unbegun);
    }
    if !has_stopped(missed, strike) {
        return Err(Unstored::Begun);
    }
    match restart(archive) {
        Ok(found) => Ok(Settled::Crashed(found)),
        Err(_) => Err(Unstored::Begun),
    }
}

// Whether the power failed.
fn has_stopped(missed: Missed, strike: Option<Order>) -> bool
    ensures { result ≡ has_stopped missed strike }
{
    match (missed, strike) {
        (Missed::Broken, Some(order)) => matches!(order.strike, Strike::Stop(_)),
        _ => false,
    }
}

// Has the recorder make a step of one entry, and looks whether memory was refused to the disk.
fn record_one(
    archive: &mut FrameArchive<MemoryDisk>,
    alloc: Global,
    entry: Entry,
) -> Result<Recorded, Missed>
    requires rests { archive.old.waiting ≡ [] }
    requires ready { archive.old.is_stale ≡ false }
    requires valid { IsTrue (is_valid (entry_of entry)) }
    ensures stored { IfOk result (λ recorded. StoresOne archive.old (entry_of entry) archive.new
        recorded) }
    ensures acknowledged { IfOk result (λ recorded. Adds told_by archive.old archive.new
        recorded.entries) }
    ensures rests { OnOk result (archive.new.waiting ≡ []) }
    ensures ready { OnOk result (archive.new.is_stale ≡ false) }
    ensures ample { OnOk result (archive.new.disk.memory_refused ≡ false) }
    ensures missed { IfErr result (λ missed. IsMissed missed archive.old (entry_of entry)
        archive.new) }
    ensures images { HoldsThen archive.old (taken_of archive.old (entry_of entry)) archive.new }
    ensures capacity { archive.new.capacity ≡ archive.old.capacity }
{
    let recorded = record_given::<Brand>(archive, alloc, entry);
    let wants_memory = archive.disk().memory_refused();
    match recorded {
        Ok(recorded) => {
            if !wants_memory {
                return Ok(recorded);
            }
            Err(begun_with(recorded.entries.len()))
        }
        Err(fault) => {
            if !wants_memory && is_of_disk(fault) {
                return Err(Missed::Broken);
            }
            Err(begun_with(archive.waiting()))
        }
    }
}

// Memory was refused, where so many entries were taken.
fn begun_with(entries: usize) -> Missed
    ensures { result ≡ missed_by (nat_lt 0 entries) }
{
    if entries > 0 {
        Missed::Begun
    } else {
        Missed::Unbegun
    }
}

// Whether the disk failed.
fn is_of_disk(fault: RecordFault) -> bool
    ensures { result ≡ true → fault ≡ RecordFault.DiskFault }
{
    match fault {
        RecordFault::DiskFault => true,
        _ => false,
    }
}

// Has the recorder make a step of the entry that the call picks.
fn record_given<K: Given>(
    archive: &mut FrameArchive<MemoryDisk>,
    alloc: Global,
    entry: Entry,
) -> Result<Recorded, RecordFault>
    requires rests { archive.old.waiting ≡ [] }
    requires ready { archive.old.is_stale ≡ false }
    requires valid { IsTrue (is_valid (entry_of entry)) }
    requires given { entry_of entry ≡ K.entry }
    ensures stored { IfOk result (λ recorded. StoresOne archive.old (entry_of entry) archive.new
        recorded) }
    ensures acknowledged { IfOk result (λ recorded. Adds told_by archive.old archive.new
        recorded.entries) }
    ensures rests { OnOk result (archive.new.waiting ≡ []) }
    ensures ready { OnOk result (archive.new.is_stale ≡ false) }
    ensures still { OnErr result (Keeps told_by archive.old archive.new) }
    ensures left { IfErr result (λ fault. LeavesOne fault archive.old (entry_of entry)
        archive.new) }
    ensures images { HoldsThen archive.old (taken_of archive.old (entry_of entry)) archive.new }
    ensures capacity { archive.new.capacity ≡ archive.old.capacity }
{
    let mut source = OneEntry::<K>::new(entry);
    record_step(alloc, archive, &mut source)
}

// The power fails between two calls of the disk.
pub fn fail_power(archive: &mut FrameArchive<MemoryDisk>, alloc: Global, pick: Pick)
    ensures down { (published : List terms.Entry) → Rests archive.old published
        → IsDown archive.new published }
    ensures images { (published batch : List terms.Entry)
        → HoldsAllOrNone archive.old.disk published batch
        → KeepsAllOrNone archive.old.disk archive.new.disk published batch }
    ensures capacity { archive.new.capacity ≡ archive.old.capacity }
{
    disk_model::laws::a_stop_leaves_an_image();
    gate_journal::laws::a_file_stands_for_one_list();
    archive.steer(stop_at_once(alloc, pick));
    archive.steer(no_orders(alloc));
}

// Starts the disk again where the power failed, and opens the archive by what its file holds alone.
pub fn restart(archive: &mut FrameArchive<MemoryDisk>) -> Result<Entries, Memory>
    ensures found { IfOk result (λ found. (left : List terms.Entry) → IsDown archive.old left
        → found ≡ left) }
    ensures rests { OnOk result ((left : List terms.Entry) → IsDown archive.old left
        → Rests archive.new left) }
    ensures images { (published batch : List terms.Entry)
        → HoldsAllOrNone archive.old.disk published batch
        → KeepsAllOrNone archive.old.disk archive.new.disk published batch }
    ensures capacity { archive.new.capacity ≡ archive.old.capacity }
{
    disk_model::laws::a_sync_leaves_one_image();
    gate_journal::laws::a_file_stands_for_one_list();
    let Ok(()) = archive.restart() else {
        return Err(Memory);
    };
    // The disk has no orders, and its file stands for entries.
    let Ok(found) = archive.open_anew() else {
        return Err(Memory);
    };
    Ok(found)
}
