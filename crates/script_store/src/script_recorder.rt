// What a station stores: its archive on a disk in memory, and the entries that are published.
ghost use Rattle.std.specs.Prelude.{◌≡◌, ◌<◌, ◌≤◌, [], ◌∷◌, ◌++◌, Some, true, false, IfOk, OnOk};
ghost use Rattle.std.specs.Prelude.{OnErr};
ghost use Rattle.std.specs.Prelude.{IsTrue};
ghost use Rattle.archive_terms.specs.Archive.{IsArchive, is_valid};
ghost use Rattle.record_form.specs.Entry.{entry_of};
ghost use Rattle.frame_archive.specs.State.{times_after};
ghost use Rattle.script_store.specs.Store.{blank};
ghost use Rattle.script_store.specs.Entries as entries;
ghost use Rattle.script_store.specs.IsHeld.{KeepsAllOrNone};
ghost use Rattle.script_store.specs.Stopped.{IsDone, IsLeft, HoldsAlone, Recovers};
ghost use Rattle.script_store.specs.Outcomes.{said_of, done_of};
ghost use Rattle.script_store.specs.Power.{fails_now};
ghost use Rattle.script_store.specs.Storing.{said_by, published_by};

use crate::order::{Order, order_behind};
use crate::outcome::Outcome;
use crate::shared::{push, share, share_all};
use crate::step_done::StepDone;
use crate::storing::{Settled, Unstored, fail_power, restart, store_under};
use disk_model::{MemoryDisk, Pick};
use frame_archive::{FrameArchive, open_archive};
use gate_journal::{Journal, Times};
use octet_core::Memory;
use record_form::{Entries, Entry};
use std::alloc::Global;
use std::marker::Model;

/// A station's archive on a disk in memory, and the entries that are published.
///
/// Where memory is refused in the middle of a line it is spent.
#[derive(Drop)]
pub struct Recorder {
    alloc: Global,
    archive: FrameArchive<MemoryDisk>,
    // The acknowledged entries, the oldest first, and their last times.
    published: Entries,
    times: Times,
    // The entry of a store that isn't over.
    begun: Option<Entry>,
    // What is to happen to the disk. It is told so in the store that this hits.
    order: Option<Order>,
    is_spent: bool,
}

impl Model for Recorder {
    ghost use Rattle.script_store.specs.Store.{Recorded};
    ghost use Rattle.script_store.specs.IsHeld.{IsHeld, begun_list};

    ghost Value = { Recorded };

    ghost view = { λ w. record {
      state = record {
        capacity = w.archive.capacity;
        published = w.published;
        unsettled = begun_list w.begun;
        order = w.order;
      };
      disk = w.archive.disk;
      is_spent = w.is_spent;
    } };

    ghost invariant = { λ w. IsHeld w.archive w.published w.times w.begun w.order w.is_spent };
}

impl Recorder {
    /// An archive of this capacity is made on an empty disk.
    pub fn new(alloc: Global, capacity: u64) -> Result<Recorder, Memory>
        requires { capacity ≤ 268435456 }
        ensures state { IfOk result (λ recorder. recorder.state ≡ blank capacity) }
        ensures ready { IfOk result (λ recorder. recorder.is_spent ≡ false) }
    {
        gate_journal::laws::a_recovery_finds_what_is_kept();
        gate_journal::laws::an_image_at_rest_stands_for_what_is_kept();
        let Ok(journal) = Journal::create(alloc, MemoryDisk::new(alloc)) else {
            return Err(Memory);
        };
        let Ok((archive, _)) = open_archive(alloc, journal.into_disk(), capacity) else {
            return Err(Memory);
        };
        Ok(Recorder {
            alloc,
            archive,
            published: Entries::new(alloc),
            times: Times::NONE,
            begun: None,
            order: None,
            is_spent: false,
        })
    }

    /// The disk in memory, to be looked at. At each return of a call, also of one that was
    /// stopped, a recovery would find there all that is published, and of a store that isn't over
    /// all or nothing.
    pub fn disk(&self) -> &MemoryDisk
        ensures disk { result.now ≡ self.now.disk }
        ensures images { Recovers result.now self.now.state }
        ensures archive { self.now.is_spent ≡ false → IsArchive self.now.state.published }
        ensures alone { self.now.is_spent ≡ false
            → HoldsAlone result.now self.now.state.published }
    {
        self.archive.disk()
    }

    /// Offers an entry, stores it as a batch of its own, and publishes it; or says what else became
    /// of it.
    pub fn offer(&mut self, entry: &Entry) -> Result<Outcome, Memory>
        requires valid { IsTrue (is_valid (entry_of entry.now)) }
        requires ready { self.old.is_spent ≡ false }
        ensures said { IfOk result (λ outcome. said_of outcome
            ≡ (entries.offer self.old.state (entry_of entry.now)).said) }
        ensures done { IfOk result (λ outcome. done_of outcome
            ≡ (entries.offer self.old.state (entry_of entry.now)).done) }
        ensures next { OnOk result (IsDone (entries.offer self.old.state (entry_of entry.now))
            self.new) }
        ensures stopped { OnErr result (IsLeft self.old
            (entries.offer self.old.state (entry_of entry.now)).given self.new) }
        ensures images { KeepsAllOrNone self.old.disk self.new.disk self.old.state.published
            (entries.offer self.old.state (entry_of entry.now)).given }
    {
        archive_terms::laws::follows_by_last_times();
        gate_journal::laws::an_image_at_rest_stands_for_what_is_kept();
        let count = self.published.len();
        let kept = share(entry)?;
        self.begun = Some(share(entry)?);
        self.is_spent = true;
        let settled = match store_under(&mut self.archive, self.alloc, self.order, entry) {
            Ok(settled) => settled,
            Err(Unstored::Refused(why)) => {
                self.begun = None;
                self.is_spent = false;
                return Ok(Outcome::Refused(why));
            }
            Err(Unstored::Unbegun) => {
                self.begun = None;
                return Err(Memory);
            }
            Err(Unstored::Begun) => return Err(Memory),
        };
        let outcome = publish(&mut self.published, settled, kept)?;
        let now = self.published.len();
        self.times = times_behind(self.times, entry, now > count);
        self.order = order_behind(self.order);
        self.begun = None;
        self.is_spent = false;
        Ok(outcome)
    }

    /// The power fails, and the archive is opened by what its file holds.
    pub fn fail_power(&mut self, pick: Pick) -> Result<Outcome, Memory>
        requires ready { self.old.is_spent ≡ false }
        ensures said { IfOk result (λ outcome. said_of outcome ≡ (fails_now self.old.state).said) }
        ensures done { IfOk result (λ outcome. done_of outcome ≡ (fails_now self.old.state).done) }
        ensures next { OnOk result (IsDone (fails_now self.old.state) self.new) }
        ensures stopped { OnErr result (IsLeft self.old [] self.new) }
        ensures images { KeepsAllOrNone self.old.disk self.new.disk self.old.state.published [] }
    {
        gate_journal::laws::an_image_at_rest_stands_for_what_is_kept();
        self.is_spent = true;
        fail_power(&mut self.archive, self.alloc, pick);
        let found = restart(&mut self.archive)?;
        let entries = found.len() as u64;
        self.published = found;
        self.order = None;
        self.is_spent = false;
        Ok(Outcome::Crashed { entries })
    }

    /// A later call of the disk is to be struck, in place of an order that stands.
    pub fn order(&mut self, order: Order)
        requires ready { self.old.is_spent ≡ false }
        requires to_come { 0 < order.calls }
        ensures next { self.new.state ≡ record self.old.state { order = Some order } }
        ensures ready { self.new.is_spent ≡ false }
        ensures disk { self.new.disk ≡ self.old.disk }
    {
        self.order = Some(order);
    }

    /// Whether memory was refused in the middle of a line. Where it wasn't, a recovery finds what
    /// is published.
    pub fn is_spent(&self) -> bool
        ensures spent { result ≡ self.now.is_spent }
        ensures alone { result ≡ false → HoldsAlone self.now.disk self.now.state.published }
    {
        self.is_spent
    }

    /// Memory was refused in the middle of a line.
    pub fn give_up(&mut self)
        ensures { self.new ≡ record self.old { is_spent = true } }
    {
        self.is_spent = true;
    }

    /// The acknowledged entries, the oldest first. Their octets are shared.
    pub fn entries(&self) -> Result<Entries, Memory>
        requires { self.now.is_spent ≡ false }
        ensures entries { IfOk result (λ entries. entries ≡ self.now.state.published) }
        ensures archive { IfOk result IsArchive }
    {
        share_all(self.alloc, self.published.as_slice())
    }
}

// Publishes what the archive has acknowledged of the entry that was stored.
fn publish(archive: &mut Entries, fate: Settled, entry: Entry) -> Result<Outcome, Memory>
    ensures published { OnOk result (archive.new
        ≡ published_by fate archive.old (entry_of entry)) }
    ensures said { IfOk result (λ outcome. said_of outcome ≡ said_by fate) }
    ensures done { IfOk result (λ outcome. done_of outcome ≡ StepDone.Fine) }
    ensures err { OnErr result (archive.new ≡ archive.old) }
{
    match fate {
        Settled::Stored => {
            push(archive, entry)?;
            Ok(Outcome::Stored)
        }
        Settled::Crashed(found) => {
            let entries = found.len() as u64;
            *archive = found;
            Ok(Outcome::Crashed { entries })
        }
        Settled::Failed { entries } => {
            push(archive, entry)?;
            Ok(Outcome::Failed { entries })
        }
    }
}

// The last times behind the store of an entry that is published or isn't.
fn times_behind(times: Times, entry: &Entry, is_kept: bool) -> Times
    ensures kept { is_kept ≡ true → result ≡ times_after times (entry_of entry.now) }
    ensures lost { is_kept ≡ false → result ≡ times }
{
    if is_kept { times.after(entry) } else { times }
}
